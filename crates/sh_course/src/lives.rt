// The life of one seat: its calls, with the turns of each.
ghost use Rattle.std.specs.Prelude.{◌≡◌, ◌++◌, List, true};
ghost use Rattle.sh_client.specs.{Feeds.{begun}, Machine.{Machine}, Rests.{is_resting}};
ghost use Rattle.sh_course.specs.{Causes.{IsReady}, Ends.{AreEnds}, Life.{call_begun, course_in, ends_in, lived, start_in, turns_in, SeatAct, AreActs, IsBegun}, Turns.{IsCallCourse, Taken}};

/// In the life of a seat the turns since its last call began are the course of that call, and the last ones of all its turns.
/// Each call that ended in it, in their order, ended at a place of it, with the cause of its reply in its course there; and
/// it holds no lock there.
pub fn lives_have_courses()
    ensures course { (m : Machine) (life : List SeatAct) → AreActs m life → IsBegun life → IsCallCourse (begun (start_in m life) (call_begun m life)) (course_in m life) (lived m life) }
    ensures last { (m : Machine) (life : List SeatAct) → (earlier : List Taken) × (turns_in m life ≡ course_in m life ++ earlier) }
    ensures ends { (m : Machine) (life : List SeatAct) → IsReady m → is_resting m ≡ true → AreActs m life → AreEnds m life (ends_in m life) }
{}
