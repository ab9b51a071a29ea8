//! The setting of a pool, where its words lie, the events on a word, and the plans of verbs.
#![tactic(auto)]

mod config;
mod event;
mod layout;
mod plan;
mod setting;
mod value;
mod verb;

pub use config::{Config, ConfigFault, ConfigParts};
pub use event::Event;
pub use plan::{Place, ReadPlan, WritePlan};
pub use value::Value;

#[cfg(test)]
mod tests {
    use super::*;

    // One server of four chunks of eight nodes, leaves of four entries, one compute server of three seats.
    fn small() -> ConfigParts {
        ConfigParts {
            servers: 1,
            chunks: 4,
            chunk_nodes: 8,
            leaf: 4,
            computes: 1,
            seats: 3,
            cached: 0,
            ..ConfigParts::default()
        }
    }

    #[test]
    fn sizes_of_settings(rt: HostRuntime) {
        let usual = ConfigParts::default();
        for (parts, node_size, nodes, words) in [
            (small(), 23, 32, 803),
            (
                ConfigParts {
                    value_words: 2,
                    ..small()
                },
                27,
                32,
                931,
            ),
            (usual, 71, 4096, 290_948),
            (
                ConfigParts {
                    chunks: 512,
                    ..usual
                },
                71,
                32_768,
                2_326_660,
            ),
        ] {
            let cfg = Config::new(parts).expect(&rt, "a lawful setting");
            assert_eq!(rt; cfg.node_size(), node_size);
            assert_eq!(rt; cfg.nodes(), nodes);
            assert_eq!(rt; cfg.words(), words);
        }
    }

    #[test]
    fn refused_settings(rt: HostRuntime) {
        let usual = ConfigParts::default();
        for (parts, fault) in [
            (ConfigParts { leaf: 3, ..usual }, ConfigFault::Leaf(3)),
            (
                ConfigParts {
                    servers: 8,
                    chunks: 4096,
                    chunk_nodes: 256,
                    ..usual
                },
                ConfigFault::TooLarge(595_591_690),
            ),
        ] {
            assert_eq!(rt; Config::new(parts).err(), Some(fault));
        }
    }

    #[test]
    fn places_of_a_small_pool(rt: HostRuntime) {
        let cfg = Config::new(small()).expect(&rt, "a lawful setting");
        assert_eq!(rt; cfg.counter_word(0), 2);
        assert_eq!(rt; [cfg.all_locks(), cfg.nodes()], [64, 32]);
        assert_eq!(rt; [cfg.lock_word(0), cfg.lock_word(63)], [3, 66]);
        assert_eq!(rt; [cfg.node_word(1), cfg.node_word(2)], [67, 90]);
        assert_eq!(rt; [cfg.parts().chunks, cfg.leaf()], [4, 4]);
        assert_eq!(rt; [cfg.first_node(0, 1), cfg.first_node(0, 2)], [9, 17]);
        assert_eq!(rt; [cfg.lock_of(1), cfg.lock_of(9)], [0, 8]);
        assert_eq!(rt; [cfg.entry_at(3), cfg.rear_at()], [18, 22]);
    }

    #[test]
    fn steps_in_a_small_pool(rt: HostRuntime) {
        let cfg = Config::new(small()).expect(&rt, "a lawful setting");
        assert_eq!(rt; [cfg.nodes(), cfg.leaf()], [32, 4]);
        let read = ReadPlan::node(&cfg, 1);
        assert_eq!(rt; read.steps(), 23);
        assert_eq!(rt; [read.at(0), read.at(22)], [89, 67]);
        let write = WritePlan::entry(&cfg, 2, 1, true);
        assert_eq!(rt; write.steps(), 5);
        for step in 0..4 {
            assert_eq!(rt;
                write.place(step),
                Place::Body {
                    at: 100 + step,
                    offset: 10 + step
                }
            );
        }
        assert_eq!(rt; write.place(4), Place::Lock { at: 4 });
    }

    #[test]
    fn events_on_words(rt: HostRuntime) {
        let mut memory = [5, u64::MAX];
        for (event, found, after) in [
            (
                Event::Exchange {
                    at: 0,
                    old: 4,
                    new: 9,
                },
                5,
                [5, u64::MAX],
            ),
            (
                Event::Exchange {
                    at: 0,
                    old: 5,
                    new: 9,
                },
                5,
                [9, u64::MAX],
            ),
            (Event::Add { at: 1 }, u64::MAX, [9, 0]),
        ] {
            assert_eq!(rt; event.apply(&mut memory), found);
            assert_eq!(rt; memory, after);
        }
    }
}
