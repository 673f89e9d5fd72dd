//! Types a bundle.

ghost use Rattle.std.specs.Prelude.{◌≡◌, ◌≢◌, IfOk, IfErr, None, Some};
ghost use Rattle.rel_lang.specs.Typed.{IsTyped};
ghost use Rattle.rel_lang.specs.View.{bundle_of};
ghost use Rattle.rel_flaws.specs.View.{fault_of};
ghost use Rattle.rel_types.specs.Items as definition;
ghost use Rattle.rel_types.specs.Numbers.{AreClasses, AreFields};
ghost use Rattle.rel_types.specs.Told.{IsFirst};

use crate::bundles::first_fault;
use crate::fault::TypeFault;
use crate::known::known_of;
use crate::laws::a_bundle_is_typed_where_it_has_no_fault;
use crate::numbers::{Numbers, numbers_of};
use rel_flaws::kind::Fault;
use rel_lang::bundle::Bundle;
use rel_lang::typed::Typed;
use rel_list::Memory;
use std::alloc::Global;

/// The classes and the fields of the bundle, or its first fault.
fn look_at(alloc: Global, bundle: &Bundle) -> Result<Result<Numbers, Fault>, Memory>
    ensures typed { IfOk result (λ r. IfOk r (λ n. AreClasses (bundle_of bundle.now) n.classes × AreFields (bundle_of bundle.now) n.fields
        × (definition.first_fault (bundle_of bundle.now) ≡ None))) }
    ensures faulty { IfOk result (λ r. IfErr r (λ f. definition.first_fault (bundle_of bundle.now) ≡ Some (fault_of f))) }
{
    let known = known_of(alloc, bundle)?;
    match first_fault(alloc, &known, bundle)? {
        Some(fault) => Ok(Err(fault)),
        None => Ok(Ok(numbers_of(alloc, &known, bundle)?)),
    }
}

/// The bundle with its classes and its fields in order of declaration, where it is typed, or its first fault.
pub fn resolve(alloc: Global, bundle: Bundle) -> Result<Typed, TypeFault>
    ensures typed { IfOk result (λ t. IsTyped (bundle_of bundle)) }
    ensures faultless { IfOk result (λ t. definition.first_fault (bundle_of bundle) ≡ None) }
    ensures same { IfOk result (λ t. t.bundle ≡ bundle) }
    ensures classes { IfOk result (λ t. AreClasses (bundle_of bundle) t.classes) }
    ensures fields { IfOk result (λ t. AreFields (bundle_of bundle) t.fields) }
    ensures first { IfErr result (IsFirst (bundle_of bundle)) }
    ensures untyped { IfErr result (λ e. e ≢ TypeFault.Memory → ¬ IsTyped (bundle_of bundle)) }
{
    a_bundle_is_typed_where_it_has_no_fault();
    match look_at(alloc, &bundle) {
        Ok(Ok(numbers)) => Ok(Typed {
            bundle,
            classes: numbers.classes,
            fields: numbers.fields,
        }),
        Ok(Err(fault)) => Err(TypeFault::Fault(fault.kind, fault.at)),
        Err(Memory) => Err(TypeFault::Memory),
    }
}
