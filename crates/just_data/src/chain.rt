ghost use Rattle.std.specs.Prelude.{◌≡◌, [], ◌∷◌, ◌++◌, reverse, IfOk};
ghost use Rattle.std.specs.Iterator.{YieldsFirstRef, item_count};
ghost use Rattle.std.specs.Cmp.Lexicographic.{pointwise, lists_per, lists_equiv};

use crate::{Exact, Sequence};
use std::alloc::{AllocError, Global};
use std::marker::Model;
use std::rc::Rc;

/// A list that shares what it begins with: a longer chain refers to the shorter one, and copies none of it.
#[cycle(chain)]
pub struct Chain<T> {
    link: Option<Rc<Link<T>>>,
}

// The last element, and the chain before it.
#[derive(Drop)]
#[cycle(chain)]
struct Link<T> {
    front: Chain<T>,
    last: T,
}

impl<T> Model for Chain<T> {
    ghost use Rattle.std.specs.Prelude.{List, length};
    ghost use Rattle.std.specs.Coded.{coded_list};

    ghost Value = { List T };

    ghost coded = { coded_list T.code };

    ghost use Rattle.just_data.specs.Chain.{elements_of};

    ghost view = { λ c. elements_of c.link };

    ghost size = { length };

    ghost use Rattle.std.proofs.Common.{arith, length-append};

    ghost size_decreases = { λ a h. Prim.grind (arith, length-append) };
}

impl<T> Chain<T> {
    /// No elements, which takes no memory.
    pub fn new() -> Chain<T>
        ensures { result ≡ [] }
    {
        Chain { link: None }
    }

    /// The elements, from the last to the first.
    pub fn iter(&self) -> ChainIter<'_, T>
        ensures { result ≡ reverse self.now }
    {
        ChainIter { rest: self }
    }
}

/// The elements of a chain, from the last to the first. Contracts see it as the list of those that are left, in that
/// order.
#[derive(Drop)]
pub struct ChainIter<'chain, T> {
    rest: &'chain Chain<T>,
}

impl<'chain, T> Model for ChainIter<'chain, T> {
    ghost use Rattle.std.specs.Prelude.{List, reverse};
    ghost use Rattle.std.specs.Coded.{coded_list};

    ghost Value = { List T };

    ghost coded = { coded_list T.code };

    ghost view = { λ it. reverse it.rest.now };
}

impl<'chain, T> Iterator for ChainIter<'chain, T> {
    type Item = &'chain T;

    ghost next_gives = { YieldsFirstRef (λ it. it) };

    ghost remaining = { item_count (λ it. it) };

    fn next(&mut self) -> Option<&'chain T> {
        let chain = self.rest;
        let link = chain.link.as_ref()?;
        self.rest = &link.front;
        Some(&link.last)
    }
}

impl<T: Drop> Chain<T> {
    /// The chain that goes on by an element.
    pub fn pushed(&self, alloc: Global, last: T) -> Result<Chain<T>, AllocError>
        ensures { IfOk result (λ chain. chain ≡ self.now ++ last ∷ []) }
    {
        let link = Link {
            front: self.clone()?,
            last,
        };
        Ok(Chain {
            link: Some(Rc::new(alloc, link)?),
        })
    }
}

impl<T: Exact + Drop> Chain<T> {
    /// Copies of the elements, in order.
    pub fn to_sequence(&self, alloc: Global) -> Result<Sequence<T>, AllocError>
        ensures { IfOk result (λ items. items ≡ self.now) }
    {
        let mut items = Vec::new(alloc);
        for item in self.iter() {
            items.push(item.clone()?)?;
        }
        items.reverse();
        Ok(Sequence::from_vec(items))
    }
}

// A loop, so that a long chain is dropped in little stack. It ends where another chain shares what is left.
impl<T: Drop> Drop for Chain<T> {
    fn drop(mut self) {
        loop {
            let Chain { link } = self;
            let Some(shared) = link else {
                return;
            };
            let Some(link) = Rc::into_inner(shared) else {
                return;
            };
            let Link { front, last } = link;
            drop(last);
            self = front;
        }
    }
}

impl<T: Drop> Clone for Chain<T> {
    ghost is_clone = { λ chain copy. copy ≡ chain };

    fn clone(&self) -> Result<Chain<T>, AllocError> {
        Ok(Chain {
            link: self.link.clone()?,
        })
    }
}

impl<T: Drop> Exact for Chain<T> {
    ghost exact = { λ x y h. h };
}
