//! Lists, names and boxes that contracts see as lists of values, and want of memory.
#![tactic(auto)]

ghost use Rattle.std.specs.Prelude.{◌≡◌, ◌<◌, ◌↔◌, [], ◌∷◌, ◌++◌, length, get_or, IfOk, IsTrue, OnOk, OnErr};

use std::alloc::{AllocError, AllocFailed, Global};
use std::marker::Model;

/// There was no memory.
#[derive(Clone, Copy, Debug, PartialEq, Eq, Drop)]
pub struct Memory;

impl From<AllocError> for Memory {
    fn from(_: AllocError) -> Memory {
        Memory
    }
}

/// For `?` behind `push` and `Box::new`. The value that could not be stored is dropped.
impl<T: Drop> From<AllocFailed<T>> for Memory {
    fn from(_: AllocFailed<T>) -> Memory {
        Memory
    }
}

/// A `Vec` that contracts see as the list of its elements.
#[derive(Debug, Drop)]
pub struct List<T> {
    pub items: Vec<T>,
}

impl<T> Model for List<T> {
    ghost use Rattle.std.specs.Prelude.{List as Listed};
    ghost use Rattle.std.specs.Coded.{coded_list};

    ghost Value = { Listed T };

    ghost coded = { coded_list T.code };

    ghost view = { λ it. it.items.items };
}

impl<T> List<T> {
    pub fn new(alloc: Global) -> List<T>
        ensures { result ≡ [] }
    {
        List {
            items: Vec::new(alloc),
        }
    }

    /// An empty list from the same allocator.
    pub fn empty_beside(&self) -> List<T>
        ensures { result ≡ [] }
    {
        List {
            items: Vec::new(*self.items.allocator()),
        }
    }

    pub fn len(&self) -> usize
        ensures { result ≡ length self.now }
    {
        self.items.len()
    }

    pub fn is_empty(&self) -> bool
        ensures { IsTrue result ↔ (self.now ≡ []) }
    {
        self.items.is_empty()
    }

    pub fn as_slice(&self) -> &[T]
        ensures { result.now ≡ self.now }
    {
        self.items.as_slice()
    }

    pub fn at(&self, i: usize) -> &T
        requires { i < length self.now }
        ensures { result.now ≡ get_or self.now i result.now }
    {
        &self.items[i]
    }
}

impl<T: Drop> List<T> {
    /// Adds an element at the end.
    pub fn push(&mut self, element: T) -> Result<(), Memory>
        ensures ok { OnOk result (self.new ≡ self.old ++ element ∷ []) }
        ensures err { OnErr result (self.new ≡ self.old) }
    {
        self.items.push(element)?;
        Ok(())
    }
}

impl<T: Clone> List<T> {
    pub fn copy(&self) -> Result<List<T>, Memory>
        requires { (x y : T) → T.is_clone x y → x ≡ y }
        ensures { IfOk result (λ it. it ≡ self.now) }
    {
        let items = self.items.clone()?;
        Ok(List { items })
    }
}

/// A text that contracts see as the list of its bytes.
#[derive(Debug, Drop)]
pub struct Name {
    pub text: String,
}

impl Model for Name {
    ghost use Rattle.std.specs.Prelude.{List as Listed, ℕ, string_bytes};

    ghost Value = { Listed ℕ };

    ghost view = { λ name. string_bytes name.text };
}

impl Name {
    pub fn new(alloc: Global, text: &str) -> Result<Name, Memory>
        ensures { IfOk result (λ name. name ≡ text.now) }
    {
        let text = String::from_str(alloc, text)?;
        Ok(Name { text })
    }

    pub fn copy(&self) -> Result<Name, Memory>
        ensures { IfOk result (λ name. name ≡ self.now) }
    {
        let text = self.text.clone()?;
        Ok(Name { text })
    }

    /// Whether the two are the same name.
    pub fn is(&self, other: &Name) -> bool
        ensures { IsTrue result ↔ (self.now ≡ other.now) }
    {
        self.text == other.text
    }

    /// Whether this is the name's text.
    pub fn is_text(&self, text: &str) -> bool
        ensures { IsTrue result ↔ (self.now ≡ text.now) }
    {
        self.text.as_str() == text
    }

    pub fn as_str(&self) -> &str
        ensures { result.now ≡ self.now }
    {
        self.text.as_str()
    }
}

/// A `Box` that contracts see as its value.
#[derive(Debug, Drop)]
pub struct Boxed<T> {
    inner: Box<T>,
}

impl<T> Model for Boxed<T> {
    ghost Value = { T };

    ghost coded = { T.code };

    ghost view = { λ b. b.inner.value };
}

impl<T> Boxed<T> {
    pub fn get(&self) -> &T
        ensures { result.now ≡ self.now }
    {
        &self.inner
    }

    pub fn into_inner(self) -> T
        ensures { result ≡ self }
    {
        let Boxed { inner } = self;
        Box::into_inner(inner)
    }
}

impl<T: Drop> Boxed<T> {
    pub fn new(alloc: Global, value: T) -> Result<Boxed<T>, Memory>
        ensures { IfOk result (λ b. b ≡ value) }
    {
        Ok(Boxed {
            inner: Box::new(alloc, value)?,
        })
    }

    /// A box from the same allocator.
    pub fn beside(&self, value: T) -> Result<Boxed<T>, Memory>
        ensures { IfOk result (λ b. b ≡ value) }
    {
        let alloc = *Box::allocator(&self.inner);
        Ok(Boxed {
            inner: Box::new(alloc, value)?,
        })
    }
}

/// Both values, unless there was no memory for one.
pub fn both<A: Drop, B: Drop>(a: Result<A, Memory>, b: Result<B, Memory>) -> Result<(A, B), Memory>
    ensures { IfOk result (λ p. (a ≡ Ok p.0) × (b ≡ Ok p.1)) }
{
    let x = a?;
    let y = b?;
    Ok((x, y))
}

/// A type whose copies equal what they copy.
pub trait Copies: Drop {
    fn copied(&self) -> Result<Self, Memory>
        ensures { IfOk result (λ c. c ≡ self.now) };
}

impl Copies for u32 {
    fn copied(&self) -> Result<u32, Memory> {
        Ok(*self)
    }
}

impl Copies for Name {
    fn copied(&self) -> Result<Name, Memory> {
        self.copy()
    }
}

impl<A: Copies, B: Copies> Copies for (A, B) {
    fn copied(&self) -> Result<(A, B), Memory> {
        both(self.0.copied(), self.1.copied())
    }
}

impl<A: Copies, B: Copies, C: Copies> Copies for (A, B, C) {
    fn copied(&self) -> Result<(A, B, C), Memory> {
        let (a, b) = both(self.0.copied(), self.1.copied())?;
        Ok((a, b, self.2.copied()?))
    }
}

impl<T: Copies> Copies for List<T> {
    fn copied(&self) -> Result<List<T>, Memory> {
        let mut copies = self.empty_beside();
        for x in &self.items {
            copies.items.push(x.copied()?)?;
        }
        Ok(copies)
    }
}
