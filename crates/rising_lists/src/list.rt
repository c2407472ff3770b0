//! Lists of values that rise.
ghost use Rattle.std.specs.Prelude.{◌≡◌, [], ◌∷◌, IfOk, OnErr, OnOk};
ghost use Rattle.std.specs.Mem.{FitsInMemory};
ghost use Rattle.rising_lists.specs.Lists.{has_none};
ghost use Rattle.rising_lists.specs.Rising.{IsRising, but, with_value};

use std::alloc::{AllocError, Allocator};
use std::array;
use std::cmp::Ordering;
use std::marker::Model;

/// A list of values in their order, each once.
///
/// A look-up takes time logarithmic in the number of values. An added or removed value moves the values after it. A
/// list of one value allocates nothing: most lists of a map have one value.
#[derive(Drop)]
#[derive_where(Debug; V)]
pub struct RisingList<V: Ord + Copy, A: Allocator> {
    state: State<V, A>,
}

// The values of a list.
#[derive(Drop)]
#[derive_where(Debug; V)]
enum State<V: Ord + Copy, A: Allocator> {
    Nothing,
    One(V),
    // Any number of values. The box keeps the list itself small.
    Many(Box<Vec<V, A>, A>),
}

// Contracts model a list as its values.
impl<V: Ord + Copy, A: Allocator> Model for RisingList<V, A> {
    ghost use Rattle.std.specs.Prelude.{List};
    ghost use Rattle.rising_lists.specs.Inner.States.{values};

    ghost Value = { List V };

    ghost view = { λ l. values l.state };
}

impl<V: Ord + Copy, A: Allocator> RisingList<V, A> {
    /// Returns a list of one value.
    pub fn one(value: V) -> RisingList<V, A>
        ensures { result ≡ value ∷ [] }
    {
        RisingList {
            state: State::One(value),
        }
    }

    /// Returns the values. `V` must have fewer than 2^63 bytes.
    pub fn as_slice(&self) -> &[V]
        requires { FitsInMemory V.row }
        ensures { result.now ≡ self.now }
    {
        match &self.state {
            State::Nothing => &[],
            State::One(value) => array::from_ref(value),
            State::Many(values) => values.as_slice(),
        }
    }

    /// Returns whether there is no value.
    pub fn is_empty(&self) -> bool
        ensures { result ≡ has_none self.now }
    {
        match &self.state {
            State::Nothing => true,
            State::One(_) => false,
            State::Many(values) => values.is_empty(),
        }
    }

    /// Inserts a value in order, unless the list has an equal value. Returns `AllocError` if an allocation fails.
    pub fn add(&mut self, alloc: &A, value: V) -> Result<(), AllocError>
    where
        A: Clone,
        requires { IsRising V.cmp self.old }
        ensures ok { OnOk result (self.new ≡ with_value V.cmp value self.old) }
        ensures err { OnErr result (self.new ≡ self.old) }
    {
        match &mut self.state {
            State::Nothing => self.state = State::One(value),
            State::One(one) => match value.cmp(one) {
                Ordering::Less => self.state = State::Many(pair(alloc, value, *one)?),
                Ordering::Equal => {}
                Ordering::Greater => self.state = State::Many(pair(alloc, *one, value)?),
            },
            State::Many(values) => match values.binary_search(&value) {
                Ok(_) => {}
                Err(at) => values.insert(at, value)?,
            },
        }
        Ok(())
    }

    /// Removes the value that is equal to `value`, if any.
    pub fn take_out(&mut self, value: &V)
        requires { IsRising V.cmp self.old }
        ensures { self.new ≡ but V.cmp value.now self.old }
    {
        match &mut self.state {
            State::Nothing => {}
            State::One(one) => {
                if value.cmp(one).is_eq() {
                    self.state = State::Nothing;
                }
            }
            State::Many(values) => match values.binary_search(value) {
                Ok(at) => {
                    let _ = values.remove(at);
                }
                Err(_) => {}
            },
        }
    }
}

impl<V: Ord + Copy, A: Allocator + Clone> Clone for RisingList<V, A> {
    ghost is_clone = { λ a b. b ≡ a };

    fn clone(&self) -> Result<RisingList<V, A>, AllocError> {
        let state = match &self.state {
            State::Nothing => State::Nothing,
            State::One(value) => State::One(*value),
            State::Many(values) => {
                let alloc = values.allocator();
                let copy = Vec::from_slice(alloc.clone()?, values)?;
                State::Many(boxed(alloc.clone()?, copy)?)
            }
        };
        Ok(RisingList { state })
    }
}

// Returns a boxed vector of two values. It has room for just these, because few lists ever have more.
fn pair<V: Ord + Copy, A: Allocator + Clone>(
    alloc: &A,
    first: V,
    second: V,
) -> Result<Box<Vec<V, A>, A>, AllocError>
    ensures { IfOk result (λ pair. pair.value.items ≡ first ∷ second ∷ []) }
{
    let mut values = Vec::with_capacity(alloc.clone()?, 2)?;
    values.push(first)?;
    values.push(second)?;
    boxed(alloc.clone()?, values)
}

// Boxes a vector.
fn boxed<V: Ord + Copy, A: Allocator>(
    alloc: A,
    values: Vec<V, A>,
) -> Result<Box<Vec<V, A>, A>, AllocError>
    ensures { IfOk result (λ boxed. boxed.value ≡ values) }
{
    match Box::new(alloc, values) {
        Ok(boxed) => Ok(boxed),
        Err(refused) => {
            drop(refused);
            Err(AllocError)
        }
    }
}
