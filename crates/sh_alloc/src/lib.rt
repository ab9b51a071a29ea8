//! The spare nodes of a seat, and the walk over the servers' counters that finds a new chunk of nodes.
#![tactic(auto)]

mod chunks;
mod laws;
mod spare;
mod state;

pub use laws::{chunk_laws, spare_laws};
pub use state::{ChunkWant, Chunks, Spare};

#[cfg(test)]
mod tests {
    use super::*;
    use sh_base::{Config, ConfigParts, Event};

    // What a walk of the seat wants after these words; None where there is no such seat.
    fn after(cfg: &Config, seat: u32, words: &[u64]) -> Option<ChunkWant> {
        if seat >= cfg.all_seats() {
            return None;
        }
        let mut chunks = Chunks::new(cfg, seat);
        for word in words {
            match chunks.want() {
                ChunkWant::Event(_) => chunks.fed(*word),
                ChunkWant::Got { .. } | ChunkWant::AllSpent => break,
            }
        }
        Some(chunks.want())
    }

    #[test]
    fn walks_over_one_server_and_over_eight(rt: HostRuntime) {
        let one = ConfigParts {
            servers: 1,
            ..ConfigParts::default()
        };
        let eight = ConfigParts {
            servers: 8,
            ..ConfigParts::default()
        };
        let load = |at| ChunkWant::Event(Event::Load { at });
        let add = |at| ChunkWant::Event(Event::Add { at });
        let spent = [64; 8];
        for (parts, seat, words, want) in [
            (one, 7, [].as_slice(), load(2)),
            (one, 7, [63].as_slice(), add(2)),
            (
                one,
                7,
                [63, 63].as_slice(),
                ChunkWant::Got {
                    server: 0,
                    chunk: 63,
                },
            ),
            (one, 7, [63, 64].as_slice(), ChunkWant::AllSpent),
            (one, 7, [64].as_slice(), ChunkWant::AllSpent),
            (eight, 7, [].as_slice(), load(9)),
            (eight, 7, [64].as_slice(), load(2)),
            (eight, 7, [63, 64].as_slice(), load(2)),
            (
                eight,
                7,
                [64, 0, 1].as_slice(),
                ChunkWant::Got {
                    server: 0,
                    chunk: 1,
                },
            ),
            (eight, 7, &spent[..7], load(8)),
            (eight, 7, &spent, ChunkWant::AllSpent),
        ] {
            let cfg = Config::new(parts).expect(&rt, "a lawful setting");
            assert_eq!(rt; after(&cfg, seat, words), Some(want));
        }
    }

    #[test]
    fn spare_nodes_go_from_the_lowest(rt: HostRuntime) {
        let mut spare = Spare::none();
        assert_eq!(rt; spare.take(), None);
        spare.fill(5, 2);
        assert_eq!(rt; spare.take(), Some(5));
        spare.put_back(5);
        assert_eq!(rt;
            [spare.take(), spare.take(), spare.take()],
            [Some(5), Some(6), None]
        );
        spare.put_back(6);
        assert_eq!(rt; [spare.take(), spare.take()], [Some(6), None]);
        spare.fill(u32::MAX - 1, 1);
        assert_eq!(rt; [spare.take(), spare.take()], [Some(u32::MAX - 1), None]);
    }
}
