// Laws of logs and books, each proved where its function is checked. They do nothing when they are called.
ghost use Rattle.std.specs.Prelude.{◌≡◌, ◌≤◌, ◌<◌, ◌++◌, ◌∷◌, [], ℕ, List, All, Any, take, slice_get};
ghost use Rattle.sh_map.specs.declared.call.Call.TheVariants as call;
ghost use Rattle.sh_map.specs.declared.call.Reply.TheVariants as reply;
ghost use Rattle.sh_map.specs.declared.log.Change.TheVariants as change;
ghost use Rattle.sh_map.specs.{declared.{log.Entry.{Entry}, book.Done.{Done}, misfit.Misfit.{Misfit}}, Map.{get}, Log.{IsLegal, IsNext, left_value, map_of}};
ghost use Rattle.sh_map.specs.{Book.{Answers, IsClosed, IsLater, IsLawful, IsOwn}, Judge.{IsFirstMisfit}, Laws.{HasNoEntry, IsLastOfKey, places_of, updates_of}};

/// A legal log is legal up to every point. What its map has at a key comes from the key's last entry alone.
pub fn log_laws()
    ensures legal_before { (log : List Entry) (i : ℕ) → IsLegal log → IsLegal (take i log) }
    ensures by_last { (log : List Entry) (key i : ℕ) (e : Entry) → IsLastOfKey log key i e
        → get (map_of log) key ≡ left_value e.change }
    ensures by_none { (log : List Entry) (key : ℕ) → HasNoEntry log key
        → get (map_of log) key ≡ None }
{}

/// A get that is answered at a point has the value that the last put of its key before that point gave; where it has
/// none, the last change of its key there was a delete, or there was no change.
pub fn get_laws()
    ensures value { (log : List Entry) (d : Done) (key : ℕ) (value : List ℕ) → Answers log d
        → d.call ≡ call.Get key → d.reply ≡ reply.Some value
        → (i : ℕ) × (e : Entry) × IsLastOfKey (take d.point log) key i e × (e.change ≡ change.Put key value) }
    ensures none { (log : List Entry) (d : Done) (key : ℕ) → Answers log d
        → d.call ≡ call.Get key → d.reply ≡ reply.None
        → (i : ℕ) (e : Entry) → IsLastOfKey (take d.point log) key i e → e.change ≡ change.Del key }
{}

/// A lawful book stays lawful by an entry that fits the map, of a seat without another entry whose call hasn't ended,
/// and by an answered call that follows the others. It has no misfit. In a closed one the entries of a seat are those of
/// its calls, in their order.
pub fn book_laws()
    ensures entry { (log : List Entry) (dones : List Done) (e : Entry) → IsLawful log dones
        → IsNext (map_of log) e
        → ((i : ℕ) (f : Entry) → slice_get log i ≡ Some f → f.seat ≡ e.seat → Any (IsOwn i) dones)
        → IsLawful (log ++ e ∷ []) dones }
    ensures done { (log : List Entry) (dones : List Done) (d : Done) → IsLawful log dones
        → Answers log d → d.first ≤ d.point
        → All (λ x. x.n < d.n) dones → All (λ x. IsLater x d) dones
        → IsLawful log (dones ++ d ∷ []) }
    ensures no_misfit { (log : List Entry) (dones : List Done) (m : Misfit) → IsLawful log dones
        → IsFirstMisfit log dones m → ⊥ }
    ensures seat { (log : List Entry) (dones : List Done) (seat : ℕ) → IsLawful log dones
        → IsClosed log dones → updates_of seat dones ≡ places_of seat 0 log }
{}
