// What the rule of a pool's table says in the words of trees, locks and books.
ghost use Rattle.std.specs.Prelude.{ℕ, List};
ghost use Rattle.sh_base.specs.Parts.{parts_of};
ghost use Rattle.sh_pool_rule.specs.{declared.view.PassView.{PassView}, Rule.{KeepsPool, PoolSays}};

use sh_base::Config;

/// What the rule of a pool's table says between any two steps: the standing words hold a lawful tree with the log's map, each
/// lock word is its holder's, and the ended calls of all seats are a lawful book of one legal log, of which each seat has
/// seen a front, and one the whole.
pub fn pools_say(cfg: &Config)
    ensures { (words : List ℕ) (views : List PassView) → KeepsPool (parts_of cfg.now) words views → PoolSays (parts_of cfg.now) words views }
{}
