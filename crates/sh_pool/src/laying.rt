// How a pool is laid, and its passes are made.
ghost use Rattle.std.specs.Prelude.{◌≡◌, ◌≤◌, ◌<◌, ◌-◌, ℕ, suc, None, Some, [], length, replicate, IfOk, OnErr, vec_capacity};
ghost use Rattle.sh_base.specs.{Parts.{parts_of}, Setting.{all_seats}};
ghost use Rattle.sh_local.specs.Chairs.{fresh_chair, CellTable};
ghost use Rattle.sh_pool_rule.specs.Views.{opening_view};
ghost use Rattle.sh_pool.specs.{Gathering.{AreAllOf}, Pools.{fresh_pass, AreLaidFor, AreNewPasses, AreReady, HasChairs, IsBlankPool, IsMaker}, declared.right.Knower.{Knower}};

use crate::pool::{LaidPool, Pool};
use crate::right::{Knower, Right};
use crate::state::Pass;
use atomic_table::{Seat, Table};
use sh_base::Config;
use sh_client::Client;
use sh_laid::laid_words;
use sh_local::{Cells, Chair};
use sh_pool_rule::{Entering, Making, PassView};
use std::alloc::{AllocError, Global};

impl LaidPool {
    // The pass of the next seat, which is cut off the maker's view. All memory that its calls need is taken here.
    fn make_pass(
        &self,
        alloc: Global,
        seat: u32,
        maker: &mut Seat<(), PassView>,
        chair: Chair<Right>,
    ) -> Result<Pass, AllocError>
        requires seat { seat < all_seats self.now.setting }
        requires maker { IsMaker self.now.setting seat (all_seats self.now.setting - seat) maker.old.me.0 }
        requires table { (maker.old.table_id ≡ self.now.table) × (maker.old.me.1 ≡ []) }
        requires chair { HasChairs self.now.cells (λ r. chair ≡ fresh_chair r.table r.key) }
        ensures pass { IfOk result (λ q. HasChairs self.now.cells (λ r. q ≡ fresh_pass self.now.table self.now.setting r seat)) }
        ensures table { (maker.new.table_id ≡ self.now.table) × (maker.new.me.1 ≡ []) }
        ensures maker { IfOk result (λ q. IsMaker self.now.setting (suc seat) (all_seats self.now.setting - suc seat) maker.new.me.0) }
    {
        let client = Client::new(alloc, &self.cfg, seat)?;
        let place = self.table.shared.split_seat::<Making>(maker);
        Ok(Pass {
            client,
            begun: false,
            seat: place,
            chair,
            compute: self.cfg.compute_of(seat),
        })
    }

    // The passes of all seats, in rising order.
    fn make_all(
        &self,
        alloc: Global,
        maker: Seat<(), PassView>,
        chairs: Vec<Chair<Right>>,
    ) -> Result<Vec<Pass>, AllocError>
        requires maker { maker.me ≡ (opening_view self.now.setting, []) }
        requires table { maker.table_id ≡ self.now.table }
        requires chairs { HasChairs self.now.cells (λ r. chairs.items ≡ replicate (all_seats self.now.setting) (fresh_chair r.table r.key)) }
        ensures { IfOk result (λ v. AreNewPasses self.now v.items) }
    {
        let mut maker = maker;
        let mut chairs = chairs;
        let mut passes = Vec::with_capacity(alloc, self.cfg.all_seats() as usize)?;
        for seat in 0..self.cfg.all_seats() {
            let Some(chair) = chairs.pop() else {
                unreachable!()
            };
            passes.push_reserved(self.make_pass(alloc, seat, &mut maker, chair)?);
        }
        Ok(passes)
    }

    // The tables of a pool of this setting, with the seat that has all actors, and the chairs.
    fn open(
        alloc: Global,
        cfg: &Config,
    ) -> Result<(LaidPool, Seat<(), PassView>, Vec<Chair<Right>>), AllocError>
        ensures setting { IfOk result (λ r. r.0.setting ≡ parts_of cfg.now) }
        ensures maker { IfOk result (λ r. (r.1.me ≡ (opening_view (parts_of cfg.now), [])) × (r.1.table_id ≡ r.0.table)) }
        ensures chairs { IfOk result (λ r. HasChairs r.0.cells (λ t. r.2.items ≡ replicate (all_seats (parts_of cfg.now)) (fresh_chair t.table t.key))) }
    {
        let words = laid_words(alloc, cfg)?;
        let (table, maker) = Table::of_words(alloc, words.as_slice(), cfg)?;
        let (_, seat) = table.shared.load_new_seat::<Entering>(0);
        let cells = cfg.all_locks() * cfg.parts().computes;
        let key = Knower { seat, cfg: *cfg };
        let (cells, chairs) = Cells::new(alloc, cfg.all_seats(), cells, key)?;
        let laid = LaidPool {
            table,
            cells,
            cfg: *cfg,
        };
        Ok((laid, maker, chairs))
    }
}

impl Pool {
    /// A pool where nothing is laid. It takes no memory.
    pub fn blank(alloc: Global) -> Pool
        ensures { IsBlankPool result }
    {
        Pool {
            laid: None,
            words: Vec::new(alloc),
        }
    }

    /// Lays the pool of a setting: node 1 is the root and the empty leaf of all keys, nobody has seen an entry, and each
    /// seat has a pass, in rising order, with a client that has no call. All memory that the passes' calls need is taken
    /// here. After want of memory nothing has changed. Condition: blank.
    pub fn lay(&mut self, alloc: Global, cfg: &Config) -> Result<Vec<Pass>, AllocError>
        requires { IsBlankPool self.old }
        ensures ok { IfOk result (λ v. AreLaidFor (parts_of cfg.now) self.new.laid v.items) }
        ensures ready { IfOk result (λ v. AreReady (parts_of cfg.now) self.new.laid v.items) }
        ensures all { IfOk result (λ v. AreAllOf self.new.laid v.items) }
        ensures words { IfOk result (λ v. self.new.words ≡ []) }
        ensures err { OnErr result (self.new ≡ self.old) }
    {
        let (laid, maker, chairs) = LaidPool::open(alloc, cfg)?;
        let passes = laid.make_all(alloc, maker, chairs)?;
        self.laid = Some(laid);
        Ok(passes)
    }
}
