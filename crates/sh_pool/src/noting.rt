// Notes: what a pass tells another of what it has seen.
ghost use Rattle.std.specs.{Prelude.{◌≡◌, ◌<◌, true, length}, List.{AllByRecursion}};
ghost use Rattle.sh_base.specs.Parts.{parts_of};
ghost use Rattle.sh_client.specs.Rests.{is_resting};
ghost use Rattle.sh_pool_rule.specs.{declared.view.Card.{Card}, Untold.{IsActorOf}, Views.{Begins}, Rights.{card_of, card_view, learnt_view, told_view}};
ghost use Rattle.sh_pool.specs.{Cards.{HasLearnt, HasNoted, IsNoteOf}, Passes.{pass_actor, tale_of, IsOf}, Pools.{IsOfPool}};

use crate::events::Words;
use crate::note::Note;
use crate::pool::{LaidPool, Pool};
use crate::state::Pass;
use atomic_table::Seat;
use sh_pool_rule::{Learning, Noting, PassView, Telling, TurnOf};
use std::marker::Brand;

// A note is made, by one step on the table of words.
fn note_as<A: TurnOf>(words: &Words, seat: &mut Seat<(), PassView>) -> Note
    requires table { (seat.old.table_id ≡ words.now.table_id) × (0 < words.now.table_id.words) }
    requires actor { IsActorOf (parts_of words.now.key) seat.old.me.0 A.actor }
    ensures seat { (seat.new.table_id ≡ seat.old.table_id) × (seat.new.me ≡ (told_view A.actor A.tale seat.old.me.0, seat.old.me.1)) }
    ensures note { (result.table ≡ words.now.table_id) × (result.card ≡ card_of A.actor seat.old.me.0) }
{
    Note {
        seat: words.split_seat::<Noting<A>>(seat),
    }
}

// A note is learnt, by one step on the table of words; and one more tells that its maker had seen no more.
fn learn_as<A: TurnOf>(words: &Words, seat: &mut Seat<(), PassView>, note: Note)
    requires table { (seat.old.table_id ≡ words.now.table_id) × (note.table ≡ words.now.table_id) × (0 < words.now.table_id.words) }
    requires actor { IsActorOf (parts_of words.now.key) seat.old.me.0 A.actor }
    ensures seat { (seat.new.table_id ≡ seat.old.table_id) × (seat.new.me ≡ (learnt_view A.actor A.tale seat.old.me.0 (card_view note.card), seat.old.me.1)) }
    ensures told { AllByRecursion (λ (c : Card). Begins c.saw seat.new.me.0.seen) seat.new.me.0.cards }
{
    let Note { seat: other } = note;
    words.join_seat::<Learning<A>>(seat, other);
    words.load::<Telling>(seat, 0);
}

impl Pass {
    fn note_by<A: TurnOf>(&mut self, pool: &LaidPool) -> Note
        requires of { IsOf pool.now self.old }
        requires rests { is_resting self.old.client ≡ true }
        requires actor { A.actor ≡ pass_actor self.old }
        requires tale { A.tale ≡ tale_of self.old (length self.old.chair.view.calls) }
        ensures of { IsOf pool.now self.new × (result.table ≡ pool.now.table) }
        ensures noted { HasNoted self.old self.new result }
    {
        note_as::<A>(&pool.table.shared, &mut self.seat)
    }

    fn learn_by<A: TurnOf>(&mut self, pool: &LaidPool, note: Note)
        requires of { IsOf pool.now self.old × (note.table ≡ pool.now.table) }
        requires rests { is_resting self.old.client ≡ true }
        requires actor { A.actor ≡ pass_actor self.old }
        requires tale { A.tale ≡ tale_of self.old (length self.old.chair.view.calls) }
        ensures of { IsOf pool.now self.new }
        ensures learnt { HasLearnt note.card self.old self.new }
    {
        learn_as::<A>(&pool.table.shared, &mut self.seat, note);
    }

    /// A note of its seat, of its calls that have ended, of the notes that it has learnt, and of what it has seen. It takes
    /// no memory and waits for nothing. Conditions: a pass of this pool with no call under way.
    pub fn note(&mut self, pool: &Pool) -> Note
        requires of { IsOfPool pool.now self.old }
        requires rests { is_resting self.old.client ≡ true }
        ensures of { IsOfPool pool.now self.new × IsNoteOf pool.now.laid result }
        ensures noted { HasNoted self.old self.new result }
    {
        self.note_by::<Brand>(pool.laid())
    }

    /// Learns a note: it has then seen at least what the note carries, and what it had seen. So no later call of it has a
    /// point before that. It takes no memory and waits for nothing. Conditions: a pass of this pool with no call under way,
    /// and a note of this pool.
    pub fn learn(&mut self, pool: &Pool, note: Note)
        requires of { IsOfPool pool.now self.old × IsNoteOf pool.now.laid note }
        requires rests { is_resting self.old.client ≡ true }
        ensures of { IsOfPool pool.now self.new }
        ensures learnt { HasLearnt note.card self.old self.new }
    {
        self.learn_by::<Brand>(pool.laid(), note);
    }
}
