// What a world begins with.
ghost use Rattle.std.specs.Prelude.{◌≡◌, ◌*◌, ◌≤◌, IfOk, length, replicate};
ghost use Rattle.sh_base.specs.{Parts.{parts_of}, Setting.{all_locks, all_seats}};
ghost use Rattle.sh_world.specs.States.{dones_of, dones_from, free_line, fresh_from, fresh_place};

use crate::{Calls, GivenCall, Line, Seat};
use sh_base::Config;
use sh_client::Client;
use sh_map::{Done, Dones};
use std::alloc::{AllocError, Global};

/// A seat without calls for each of the setting.
pub(crate) fn fresh_seats(alloc: Global, cfg: &Config) -> Result<Vec<Seat>, AllocError>
    ensures { IfOk result (λ v. v.items ≡ fresh_from (parts_of cfg.now) 0 (all_seats (parts_of cfg.now))) }
{
    let mut seats = Vec::new(alloc);
    for seat in 0..cfg.all_seats() {
        seats.push(Seat {
            client: Client::new(alloc, cfg, seat)?,
            numbers: Vec::new(alloc),
            ended: 0,
            number: 0,
            ticket: 0,
            seen: 0,
            first: 0,
            point: 0,
        })?;
    }
    Ok(seats)
}

/// A free line for each lock and compute server.
pub(crate) fn free_lines(alloc: Global, cfg: &Config) -> Result<Vec<Line>, AllocError>
    ensures { IfOk result (λ v. v.items ≡ replicate (all_locks (parts_of cfg.now) * (parts_of cfg.now).computes) free_line) }
{
    let line = Line {
        next: 0,
        served: 0,
        left: None,
    };
    vec![in alloc; line; cfg.all_locks() as usize * cfg.parts().computes as usize]
}

/// The calls that have ended.
pub(crate) fn ended_calls(alloc: Global, calls: &Calls) -> Result<Dones, AllocError>
    requires { length calls.now.calls ≤ 4294967295 }
    ensures { IfOk result (λ v. v.items ≡ dones_of calls.now.calls) }
{
    let mut dones = Vec::new(alloc);
    for i in 0..calls.len() {
        let GivenCall {
            seat,
            call,
            reply,
            first,
            point,
        } = calls.get(i);
        if let Some(reply) = reply {
            dones.push(Done {
                n: i as u32 + 1,
                seat,
                call,
                reply,
                first: u64::from(first),
                point: u64::from(point),
                rows: calls.rows_of(alloc, i)?,
            })?;
        }
    }
    Ok(dones)
}
