//! Lists of values.

ghost use Rattle.std.specs.Prelude.{◌≡◌, ◌<◌, ◌≤◌, ◌↔◌, [], ◌∷◌, ◌++◌, length, slice_get, IfOk, IsOk, IsTrue, OnErr, OnOk};

use crate::values::value::Value;
use smallvec::SmallVec;
use std::alloc::{AllocError, Global};
use std::cmp::Ordering;
use std::default::MadeWith;
use std::fmt;
use std::marker::Model;

/// The values that a signal or a timer carries, in the order of its parameters. Up to two of them lie in it; more need
/// memory of their own.
#[derive(Clone)]
pub struct Values {
    list: SmallVec<Value, 2>,
}

/// Written out, so that it is proved here, and not anew in each crate that drops values.
impl Drop for Values {
    #[inline(always)]
    fn drop(self) {
        let Values { list: _ } = self;
    }
}

impl Model for Values {
    ghost use Rattle.port_model.specs.Value.{ValueList};

    ghost Value = { ValueList };

    ghost view = { λ values. values.list.items };
}

/// The filler of a place of a list that has no value yet. No list shows it.
impl MadeWith<Global> for Value {
    fn made_with(_alloc: Global) -> Self {
        Value::Bool(false)
    }
}

impl Values {
    /// No values.
    pub fn none(alloc: Global) -> Self
        ensures { result ≡ [] }
    {
        Values {
            list: SmallVec::new(alloc),
        }
    }

    /// These values, in their order. Only memory can be wanting.
    pub fn from_slice(alloc: Global, values: &[Value]) -> Result<Self, AllocError>
        ensures ok { IfOk result (λ list. list ≡ values.now) }
        ensures few { length values.now ≤ 2 → IsOk result }
    {
        let list = SmallVec::from_slice(alloc, values)?;
        Ok(Values { list })
    }

    /// Adds a value behind the others. Only memory can be wanting.
    #[inline(always)]
    pub fn push(&mut self, value: Value) -> Result<(), AllocError>
        ensures ok { OnOk result (self.new ≡ self.old ++ value ∷ []) }
        ensures few { length self.old < 2 → IsOk result }
        ensures err { OnErr result (self.new ≡ self.old) }
    {
        if self.list.len() == self.list.capacity() {
            self.list.reserve(1)?;
        }
        self.list.push_reserved(value);
        Ok(())
    }

    /// A copy. Only memory can be wanting.
    #[inline(always)]
    pub fn copied(&self) -> Result<Self, AllocError>
        ensures ok { IfOk result (λ copy. copy ≡ self.now) }
        ensures few { length self.now ≤ 2 → IsOk result }
    {
        let mut copy = Self::none(*self.list.allocator());
        for value in self.list.as_slice() {
            copy.push(*value)?;
        }
        Ok(copy)
    }

    /// The value of the parameter at `index`, from 0.
    pub fn get(&self, index: usize) -> Option<Value>
        ensures { result ≡ slice_get self.now index }
    {
        self.list.as_slice().get(index).copied()
    }

    /// The values in order.
    pub fn as_slice(&self) -> &[Value]
        ensures { result.now ≡ self.now }
    {
        self.list.as_slice()
    }

    /// How many values there are.
    pub fn len(&self) -> usize
        ensures { result ≡ length self.now }
    {
        self.list.len()
    }

    /// Whether there are none.
    pub fn is_empty(&self) -> bool
        ensures { IsTrue result ↔ (self.now ≡ []) }
    {
        self.list.is_empty()
    }
}

impl fmt::Display for Values {
    ghost use Rattle.std.specs.Prelude.{Some};
    ghost use Rattle.port_model.specs.Text.{values_text};

    ghost output = { λ values. Some (values_text values) };

    fn fmt<W: fmt::Write>(&self, f: &mut fmt::Formatter<W>) -> fmt::Result {
        let Some((first, more)) = self.list.as_slice().split_first() else {
            return Ok(());
        };
        write!(f, "({first}")?;
        for value in more {
            write!(f, ",{value}")?;
        }
        write!(f, ")")
    }
}

impl PartialEq for Values {
    ghost use Rattle.std.specs.Cmp.{partial_equiv_from_equiv};
    ghost use Rattle.port_model.specs.Same.{same_values, same_values_equiv};

    ghost eq = { same_values };

    ghost laws = { partial_equiv_from_equiv same_values_equiv };

    fn eq(&self, other: &Self) -> bool {
        self.list == other.list
    }
}

impl Eq for Values {
    ghost use Rattle.port_model.specs.Same.{same_values_equiv};

    ghost laws = { same_values_equiv };
}

impl PartialOrd for Values {
    ghost use Rattle.std.specs.Prelude.{refl};
    ghost use Rattle.std.specs.Cmp.{partial_order_from_agreeing_total};
    ghost use Rattle.std.specs.Ordering.{as_partial_cmp};
    ghost use Rattle.port_model.specs.Same.{values_order, values_order_total, values_order_ties};

    ghost partial_cmp = { as_partial_cmp values_order };

    ghost laws = { partial_order_from_agreeing_total values_order values_order_total (λ x y. refl) values_order_ties };

    fn partial_cmp(&self, other: &Self) -> Option<Ordering> {
        Some(self.cmp(other))
    }
}

impl Ord for Values {
    ghost use Rattle.std.specs.Prelude.{refl};
    ghost use Rattle.port_model.specs.Same.{values_order, values_order_total, values_order_ties};

    ghost cmp = { values_order };

    ghost total = { values_order_total };

    ghost matches_partial_cmp = { λ x y. refl };

    ghost matches_eq = { values_order_ties };

    fn cmp(&self, other: &Self) -> Ordering {
        self.list.cmp(&other.list)
    }
}
