//! A bundle whose types were looked at, with its classes and its fields.

ghost use Rattle.std.specs.Prelude.{◌≡◌, IfOk};

use crate::bundle::Bundle;
use crate::expr::Ty;
use rel_list::{Copies, List, Memory, Name, both};

/// A field with its class, which is told by its number in order of declaration, and its type.
#[derive(Drop)]
pub struct FieldInfo {
    pub name: Name,
    pub class: u32,
    pub ty: Ty,
}

impl FieldInfo {
    pub fn copy(&self) -> Result<FieldInfo, Memory>
        ensures { IfOk result (λ f. f ≡ self.now) }
    {
        let (name, ty) = both(self.name.copy(), self.ty.copy())?;
        Ok(FieldInfo {
            name,
            class: self.class,
            ty,
        })
    }
}

impl Copies for FieldInfo {
    fn copied(&self) -> Result<FieldInfo, Memory> {
        self.copy()
    }
}

/// A bundle, with its classes and its fields in order of declaration.
#[derive(Drop)]
pub struct Typed {
    pub bundle: Bundle,
    pub classes: List<Name>,
    pub fields: List<FieldInfo>,
}

impl Typed {
    pub fn copy(&self) -> Result<Typed, Memory>
        ensures { IfOk result (λ t. t ≡ self.now) }
    {
        let names = both(self.classes.copied(), self.fields.copied());
        let (bundle, (classes, fields)) = both(self.bundle.copy(), names)?;
        Ok(Typed {
            bundle,
            classes,
            fields,
        })
    }
}
