ghost use Rattle.std.specs.Prelude.{◌≡◌, [], OnOk, OnErr};
ghost use Rattle.just_tasks.specs.Pairs.{put_in};
ghost use Rattle.just_execution.specs.loops.Pairs.{table_of};

use just_tasks::Pair;
use std::alloc::{AllocError, Global};
use std::collections::BTreeSet;
use std::marker::Model;

/// The pairs that ran under one table.
#[derive(Drop)]
pub struct Once {
    pairs: BTreeSet<Pair>,
}

impl Model for Once {
    ghost use Rattle.std.specs.Prelude.{List};
    ghost use Rattle.just_tasks.specs.declared.pair.Pair.{Pair};

    ghost Value = { List Pair };

    ghost view = { λ t. t.pairs.keys };
}

impl Once {
    /// No pairs, which takes no memory.
    pub fn new(alloc: Global) -> Once
        ensures { result ≡ [] }
    {
        Once {
            pairs: BTreeSet::new(alloc),
        }
    }

    /// Whether the pair ran.
    pub fn contains(&self, pair: &Pair) -> bool
        ensures { result ≡ table_of self.now pair.now }
    {
        self.pairs.contains(pair)
    }

    /// Puts the pair in. Where memory is refused the table stands.
    pub fn insert(&mut self, pair: Pair) -> Result<(), AllocError>
        ensures ok { OnOk result (table_of self.new ≡ put_in (table_of self.old) pair) }
        ensures err { OnErr result (self.new ≡ self.old) }
    {
        self.pairs.insert(pair)?;
        Ok(())
    }
}
