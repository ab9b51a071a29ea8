// How a pool's passes are gathered, and its words shown.
ghost use Rattle.std.specs.{Prelude.{◌≡◌, ◌<◌, ◌≤◌, IfErr, IfOk, [], length, vec_capacity}, List.{AllByRecursion}, Slots.{slots_items, slots_len, IsFull}};
ghost use Rattle.sh_base.specs.{Parts.{parts_of}, Setting.{pool_words}};
ghost use Rattle.sh_pool_rule.specs.{Rights.{joined_view}, Views.{empty_view}};
ghost use Rattle.sh_pool.specs.{Passes.{pass_actor, tale_of, IsPass}, Pools.{AreReady}};
ghost use Rattle.sh_pool.specs.Gathering.{chairs_in, gathered_view, told_of, AreAllOf, AreAllPasses, IsAtTable, HasGatheredAll, IsGatheredFrom};

use crate::events::Words;
use crate::pool::{LaidPool, Pool};
use crate::right::Right;
use crate::state::Pass;
use atomic_table::{Closed, Seat};
use sh_local::Chair;
use sh_pool_rule::{Entering, PassView, TakingIn, TurnOf};
use std::alloc::{AllocError, Global};
use std::marker::Brand;

// Takes a pass in, with all that its view isn't told of yet. Its chair comes back.
fn take_in_as<A: TurnOf>(words: &Words, last: &mut Seat<(), PassView>, pass: Pass) -> Chair<Right>
    requires table { (last.old.table_id ≡ words.now.table_id) × (pass.table ≡ words.now.table_id) × (0 < words.now.table_id.words) }
    requires setting { pass.client.setting ≡ parts_of words.now.key }
    requires actor { A.actor ≡ pass_actor pass }
    requires tale { A.tale ≡ tale_of pass (length pass.chair.view.calls) }
    ensures seat { (last.new.table_id ≡ last.old.table_id) × (last.new.me ≡ (joined_view last.old.me.0 (told_of pass), last.old.me.1)) }
    ensures chair { result ≡ pass.chair }
    ensures pass { IsPass pass }
{
    let Pass {
        client,
        begun: _,
        seat,
        chair,
        compute: _,
    } = pass;
    drop(client);
    words.join_seat::<TakingIn<A>>(last, seat);
    chair
}

fn take_in(words: &Words, last: &mut Seat<(), PassView>, pass: Pass) -> Chair<Right>
    requires table { (last.old.table_id ≡ words.now.table_id) × (pass.table ≡ words.now.table_id) × (0 < words.now.table_id.words) }
    requires setting { pass.client.setting ≡ parts_of words.now.key }
    ensures seat { (last.new.table_id ≡ last.old.table_id) × (last.new.me ≡ (joined_view last.old.me.0 (told_of pass), last.old.me.1)) }
    ensures chair { result ≡ pass.chair }
    ensures pass { IsPass pass }
{
    take_in_as::<Brand>(words, last, pass)
}

// Takes all passes in, from the last to the first. Their chairs come back.
fn take_all(
    words: &Words,
    last: &mut Seat<(), PassView>,
    passes: Vec<Pass>,
    chairs: Vec<Chair<Right>>,
) -> Vec<Chair<Right>>
    requires table { (last.old.table_id ≡ words.now.table_id) × (last.old.me ≡ (empty_view, [])) × (0 < words.now.table_id.words) }
    requires passes { AllByRecursion (IsAtTable words.now.table_id (parts_of words.now.key)) passes.items }
    requires room { (chairs.items ≡ []) × (length passes.items ≤ vec_capacity chairs) }
    ensures seat { (last.new.table_id ≡ words.now.table_id) × (last.new.me ≡ (gathered_view passes.items, [])) }
    ensures chairs { result.items ≡ chairs_in passes.items }
    ensures passes { AllByRecursion IsPass passes.items }
{
    let mut passes = passes;
    let mut chairs = chairs;
    while let Some(pass) = passes.pop() {
        chairs.push_reserved(take_in(words, last, pass));
    }
    chairs
}

// The words of a closed table. Conditions: it has no slot, and there is room for so many words.
fn read_out(closed: Closed<(), Global>, count: usize, words: Vec<u64>) -> Vec<u64>
    requires full { IsFull closed.words × (slots_len closed.words ≡ count) × (slots_len closed.slots ≡ 0) }
    requires room { (words.items ≡ []) × (count ≤ vec_capacity words) }
    ensures { result.items ≡ slots_items closed.words }
{
    let mut words = words;
    for i in 0..count {
        words.push_reserved(closed.word(i));
    }
    closed.free();
    words
}

impl LaidPool {
    // Takes all passes in, and closes the tables. The words come back.
    fn close(self, passes: Vec<Pass>, chairs: Vec<Chair<Right>>, words: Vec<u64>) -> Vec<u64>
        requires all { AreAllPasses self passes.items }
        requires chairs { (chairs.items ≡ []) × (length passes.items ≤ vec_capacity chairs) }
        requires words { (words.items ≡ []) × (pool_words self.setting ≤ vec_capacity words) }
        ensures { IsGatheredFrom self.setting passes.items result.items }
    {
        let LaidPool {
            table,
            mut cells,
            cfg: _,
        } = self;
        let (_, mut last) = table.shared.load_new_seat::<Entering>(0);
        let chairs = take_all(&table.shared, &mut last, passes, chairs);
        cells.gather(chairs);
        cells.free();
        let count = table.word_count();
        read_out(table.close_with(last), count, words)
    }

    fn word_count(&self) -> usize
        ensures { result ≡ pool_words self.now.setting }
    {
        self.table.word_count()
    }
}

impl Pool {
    /// Takes in all passes, and closes the pool: its words are then shown by `words`. It takes its memory first; after want
    /// of memory the passes come back, and nothing has changed. Condition: these are all passes of this pool, each once, in
    /// any order, and none has a call under way.
    pub fn gather(
        &mut self,
        alloc: Global,
        passes: Vec<Pass>,
    ) -> Result<(), (Vec<Pass>, AllocError)>
        requires { AreAllOf self.old.laid passes.items }
        ensures gathered { IfOk result (λ r. HasGatheredAll self.old.laid passes.items self.new) }
        ensures err { IfErr result (λ r. (self.new ≡ self.old) × (r.0.items ≡ passes.items)) }
    {
        let Ok(chairs) = Vec::with_capacity(alloc, passes.len()) else {
            return Err((passes, AllocError));
        };
        let Ok(words) = Vec::with_capacity(alloc, self.laid().word_count()) else {
            return Err((passes, AllocError));
        };
        let Some(laid) = self.laid.take() else {
            unreachable!()
        };
        self.words = laid.close(passes, chairs, words);
        Ok(())
    }

    /// The words of a pool that was gathered, and none before.
    pub fn words(&self) -> &[u64]
        ensures { result.now ≡ self.now.words }
    {
        self.words.as_slice()
    }
}
