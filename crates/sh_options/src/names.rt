// The options of the programs.
ghost use Rattle.std.specs.Prelude.{◌≡◌, map};
ghost use Rattle.sh_options.specs.Order.{names_for};

use sh_sheet::Mode;

// The options of a setting's numbers stand first.
const OPTIONS: [&str; 14] = [
    "servers",
    "chunks",
    "chunk-nodes",
    "locks",
    "leaf",
    "computes",
    "seats",
    "bound",
    "bits",
    "rows",
    "cached",
    "value-words",
    "make",
    "seed",
];

const FLAGS: [&str; 2] = ["map", "events"];

/// The options that take a value.
pub fn options_for(mode: Mode) -> &'static [&'static str]
    ensures { map (λ s. s.now) result.now ≡ (names_for mode).options }
{
    match mode {
        Mode::Run | Mode::Feed => &OPTIONS[..12],
        Mode::Replay => &OPTIONS,
    }
}

/// The options that take none.
pub fn flags_for(mode: Mode) -> &'static [&'static str]
    ensures { map (λ s. s.now) result.now ≡ (names_for mode).flags }
{
    match mode {
        Mode::Run | Mode::Feed => &FLAGS[..1],
        Mode::Replay => &FLAGS,
    }
}
