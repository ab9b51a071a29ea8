//! The exchange that takes a lock, and what its holder does with it after a call.
#![tactic(auto)]

mod grab;
mod release;
mod state;

pub use release::after_hold;
pub use state::{Grab, Release};

#[cfg(test)]
mod tests {
    use super::*;
    use sh_base::{Config, ConfigParts, Event};

    #[test]
    fn owners_of_locks(rt: HostRuntime) {
        let one = ConfigParts {
            servers: 1,
            computes: 1,
            ..ConfigParts::default()
        };
        let eight = ConfigParts {
            servers: 8,
            computes: 8,
            ..ConfigParts::default()
        };
        for (parts, lock, seat, at, new) in [
            (one, 0, 3, 3, 1),
            (one, 63, 0, 66, 1),
            (eight, 0, 0, 10, 1),
            (eight, 511, 31, 521, 8),
        ] {
            let cfg = Config::new(parts).expect(&rt, "a lawful setting");
            assert!(rt; lock < cfg.all_locks() && seat < cfg.all_seats());
            let mut grab = Grab::new(&cfg, lock, seat);
            assert_eq!(rt; grab.event(), Event::Exchange { at, old: 0, new });
            assert_eq!(rt;
                [grab.fed(new), grab.fed(u64::MAX), grab.fed(0)],
                [false, false, true]
            );
        }
    }

    #[test]
    fn releases_at_the_bound(rt: HostRuntime) {
        for (waiting, depth, bound, release) in [
            (0, 0, 4, Release::Free),
            (1, 3, 4, Release::Hand),
            (u64::MAX, 4, 4, Release::Free),
            (1, 0, 0, Release::Free),
            (1, 0, 1, Release::Hand),
        ] {
            assert_eq!(rt; after_hold(waiting, depth, bound), release);
        }
    }
}
