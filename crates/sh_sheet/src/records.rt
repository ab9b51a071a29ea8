// The records of a sheet.
ghost use Rattle.std.specs.Prelude.{◌≡◌, ◌∷◌, ◌++◌, [], codes};
ghost use Rattle.sh_sheet.specs.Records.{records_in};

/// What some sheets say, as laws: how lines, quotes and marks are read.
pub fn known_sheets()
    ensures none { records_in [] ≡ [] }
    ensures ends { records_in (codes "a,b\r\nc\rd\ne") ≡ (codes "a" ∷ codes "b" ∷ []) ∷ (codes "c" ∷ []) ∷ (codes "d" ∷ []) ∷ (codes "e" ∷ []) ∷ [] }
    ensures empty_lines { records_in (codes "\n\r\n\na\n\n") ≡ (codes "a" ∷ []) ∷ [] }
    ensures empty_fields { records_in (codes ",\n,,") ≡ ([] ∷ [] ∷ []) ∷ ([] ∷ [] ∷ [] ∷ []) ∷ [] }
    ensures blank { records_in (codes " \n a ") ≡ (codes " " ∷ []) ∷ (codes " a " ∷ []) ∷ [] }
    ensures quoted { records_in (codes "\"a,b\",\"c\"\"d\",\"e\nf\"") ≡ (codes "a,b" ∷ codes "c\"d" ∷ codes "e\nf" ∷ []) ∷ [] }
    ensures empty_quotes { records_in (codes "\"\"\n") ≡ ([] ∷ []) ∷ [] }
    ensures after_quote { records_in (codes "\"a\"b,c") ≡ (codes "ab" ∷ codes "c" ∷ []) ∷ [] }
    ensures inner_quote { records_in (codes "a\"b,c") ≡ (codes "a\"b" ∷ codes "c" ∷ []) ∷ [] }
    ensures open_quote { records_in (codes "\"a,b\nc") ≡ (codes "a,b\nc" ∷ []) ∷ [] }
    ensures mark { records_in (239 ∷ 187 ∷ 191 ∷ codes "a") ≡ (codes "a" ∷ []) ∷ [] }
    ensures late_mark { records_in (codes "a\n" ++ (239 ∷ 187 ∷ 191 ∷ [])) ≡ (codes "a" ∷ []) ∷ ((239 ∷ 187 ∷ 191 ∷ []) ∷ []) ∷ [] }
    ensures hash { records_in (codes "#a\n") ≡ (codes "#a" ∷ []) ∷ [] }
{}
