//! Lists whose items take less memory for IPv4 than for IPv6.
ghost use Rattle.std.specs.Prelude.{◌≡◌, ◌↔◌, ◌<◌, ◌++◌, ◌∷◌, [], Some, length, slice_get, IfOk, IsTrue, OnErr, OnOk};

use std::alloc::{AllocError, Global};
use std::marker::Model;

/// An item that a list stores in one of two forms.
pub trait Packable: Copy {
    /// The form of an IPv4 item.
    type Narrow: Copy;
    /// The form of an item of any version.
    type Wide: Copy;

    ghost fits_narrow: { Self → Type 0 };

    ghost of_narrow: { Self.Narrow → Self };

    ghost of_wide: { Self.Wide → Self };

    /// Returns `true` if the item is IPv4.
    fn is_narrow(&self) -> bool
        ensures { IsTrue result ↔ fits_narrow self.now };

    /// Returns the narrow form of an IPv4 item.
    fn narrow(self) -> Self::Narrow
        requires { fits_narrow self }
        ensures { of_narrow result ≡ self };

    /// Returns the wide form.
    fn wide(self) -> Self::Wide
        ensures { of_wide result ≡ self };

    /// Returns the item of a narrow form.
    fn from_narrow(packed: Self::Narrow) -> Self
        ensures { result ≡ of_narrow packed };

    /// Returns the item of a wide form.
    fn from_wide(packed: Self::Wide) -> Self
        ensures { result ≡ of_wide packed };
}

/// A list of items: the first ones in narrow form, the rest in wide form.
pub struct PackedList<T: Packable> {
    pub(crate) narrow: Vec<T::Narrow>,
    pub(crate) wide: Vec<T::Wide>,
}

// A drop is one call, so the proofs of functions that drop this type have one step instead of one for each part.
impl<T: Packable> Drop for PackedList<T> {
    fn drop(self) {
        let PackedList { narrow: _, wide: _ } = self;
    }
}

impl<T: Packable> Model for PackedList<T> {
    ghost use Rattle.std.specs.Prelude.{List, map, ◌++◌};

    ghost Value = { List T };

    ghost view = { λ l. map T.of_narrow l.narrow.items ++ map T.of_wide l.wide.items };
}

impl<T: Packable> PackedList<T> {
    /// Returns an empty list.
    pub fn new(alloc: Global) -> PackedList<T>
        ensures { result ≡ [] }
    {
        PackedList {
            narrow: Vec::new(alloc),
            wide: Vec::new(alloc),
        }
    }

    /// Returns the number of items.
    pub fn len(&self) -> usize
        ensures { result ≡ length self.now }
    {
        self.narrow.len() + self.wide.len()
    }

    /// Returns the item at an index.
    #[inline(always)]
    pub fn at(&self, index: usize) -> T
        requires { index < length self.now }
        ensures { slice_get self.now index ≡ Some result }
    {
        if index < self.narrow.len() {
            T::from_narrow(self.narrow[index])
        } else {
            T::from_wide(self.wide[index - self.narrow.len()])
        }
    }

    /// Returns the items in order, unpacked.
    pub fn to_vec(&self, alloc: Global) -> Result<Vec<T>, AllocError>
        ensures { IfOk result (λ all. all.items ≡ self.now) }
    {
        let mut all = Vec::with_capacity(alloc, self.len())?;
        for index in 0..self.len() {
            all.push(self.at(index))?;
        }
        Ok(all)
    }

    /// Appends an item. If an allocation fails, the list is unchanged.
    pub fn push(&mut self, item: T) -> Result<(), AllocError>
        ensures ok { OnOk result (self.new ≡ self.old ++ item ∷ []) }
        ensures err { OnErr result (self.new ≡ self.old) }
    {
        self.push_inline(item)
    }

    /// Appends an item like [`push`](Self::push), but is always inlined.
    #[inline(always)]
    pub fn push_inline(&mut self, item: T) -> Result<(), AllocError>
        ensures ok { OnOk result (self.new ≡ self.old ++ item ∷ []) }
        ensures err { OnErr result (self.new ≡ self.old) }
    {
        // `reserve` and `push_reserved` are inlined, and `push` isn't.
        if item.is_narrow() && self.wide.is_empty() {
            self.narrow.reserve(1)?;
            self.narrow.push_reserved(item.narrow());
        } else {
            self.wide.reserve(1)?;
            self.wide.push_reserved(item.wide());
        }
        Ok(())
    }
}
