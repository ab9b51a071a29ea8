// What sheets say, as laws.
ghost use Rattle.std.specs.Prelude.{◌≡◌, ◌∷◌, [], codes, true, false};
ghost use Rattle.sh_base.specs.Setting.{default_parts};
ghost use Rattle.sh_map.specs.declared.call.Call.TheVariants.{Put, Range};
ghost use Rattle.sh_sheet.specs.declared.item.{Mode.TheVariants.{Feed, Replay, Run}, Item.TheVariants.{After, Ask, Mark, Turn}};
ghost use Rattle.sh_sheet.specs.{declared.status.RowCause.TheVariants.{BadBounds, BadKey, BadMark, BadNumber, BadOp, BadSeat, FieldCount, TurnNotHere}, Sheet.{Items, Refused, sheet_of}};

/// What some sheets say in the default setting, of 8 seats and values of one word.
pub fn known_rows()
    ensures none { sheet_of default_parts Run [] ≡ Items false [] }
    ensures heading { sheet_of default_parts Run (codes "op,seat,a,b\nput,7,5,007\n") ≡ Items true (Ask 7 (Put 5 (7 ∷ [])) ∷ []) }
    ensures second_heading { sheet_of default_parts Run (codes "op,seat,a,b\nop,seat,a,b\n") ≡ Refused 2 BadOp }
    ensures few_fields { sheet_of default_parts Run (codes "put,0,5,5\nput,0") ≡ Refused 2 FieldCount }
    ensures no_op { sheet_of default_parts Run (codes "push,0,5,5") ≡ Refused 1 BadOp }
    ensures turn { sheet_of default_parts Replay (codes "turn,0,9,") ≡ Items false (Turn 0 9 ∷ []) }
    ensures no_turn { sheet_of default_parts Run (codes "turn,8,x,") ≡ Refused 1 TurnNotHere }
    ensures no_number { sheet_of default_parts Run (codes "put,8,0,-1") ≡ Refused 1 BadNumber }
    ensures too_large { sheet_of default_parts Run (codes "get,8,18446744073709551616,") ≡ Refused 1 BadNumber }
    ensures too_long { sheet_of default_parts Run (codes "get,8,000000000000000000005,") ≡ Refused 1 BadNumber }
    ensures two_words { sheet_of default_parts Run (codes "put,8,5,5:7") ≡ Refused 1 BadNumber }
    ensures no_seat { sheet_of default_parts Run (codes "put,8,0,5") ≡ Refused 1 BadSeat }
    ensures no_key { sheet_of default_parts Run (codes "get,0,0,") ≡ Refused 1 BadKey }
    ensures last_word { sheet_of default_parts Run (codes "get,0,18446744073709551615,") ≡ Refused 1 BadKey }
    ensures low { sheet_of default_parts Run (codes "range,0,0,8") ≡ Refused 1 BadKey }
    ensures bounds { sheet_of default_parts Run (codes "range,0,8,7") ≡ Refused 1 BadBounds }
    ensures all_keys { sheet_of default_parts Run (codes "range,0,1,18446744073709551615") ≡ Items false (Ask 0 (Range 1 18446744073709551615) ∷ []) }
    ensures mark { sheet_of default_parts Run (codes "mark,0,1,\nafter,2,1,\n") ≡ Items false (Mark 0 1 ∷ After 2 1 ∷ []) }
    ensures second_mark { sheet_of default_parts Run (codes "mark,0,1,\nmark,1,1,\n") ≡ Refused 2 BadMark }
    ensures feed { sheet_of default_parts Feed (codes "op,seat,a,b\nput,,5,50\nrange,,1,8") ≡ Items true (Ask 0 (Put 5 (50 ∷ [])) ∷ Ask 0 (Range 1 8) ∷ []) }
    ensures feed_seat { sheet_of default_parts Feed (codes "put,0,0,50") ≡ Refused 1 BadNumber }
    ensures feed_turn { sheet_of default_parts Feed (codes "turn,0,x,") ≡ Refused 1 BadOp }
    ensures feed_key { sheet_of default_parts Feed (codes "range,,0,8\nrange,,8,7") ≡ Refused 1 BadKey }
    ensures later_mark { sheet_of default_parts Run (codes "after,0,1,\nmark,1,1,\n") ≡ Refused 1 BadMark }
{}
