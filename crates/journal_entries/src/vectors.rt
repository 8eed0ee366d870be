//! Bytes of given entries.

ghost use Rattle.std.specs.Prelude.{◌≡◌, [], ◌∷◌, pos};
ghost use Rattle.journal_entries.specs.declared.entry.Entry.TheVariants.{Commit, Mark};
ghost use Rattle.journal_entries.specs.declared.entry.Op.TheVariants.{Insert};
ghost use Rattle.row_types.specs.declared.value.Value.TheVariants.{Number};
ghost use Rattle.journal_entries.specs.Spelling.{entry_bytes, value_bytes};

/// A commit with ticket 1 that inserts (3, 30) into A, a mark of 1, and the number 12.35.
pub fn vectors()
    ensures commit { entry_bytes (Commit (record { 0 = 1 })
        (Insert (65 ∷ []) (Number (record { units = pos 3; scale = 0 }) ∷ Number (record { units = pos 30; scale = 0 })
        ∷ []) ∷ [])) ≡
        1 ∷ 0 ∷ 0 ∷ 0 ∷ 0 ∷ 0 ∷ 0 ∷ 0 ∷ 1 ∷ 0 ∷ 1 ∷ 1 ∷ 1 ∷ 0x41 ∷ 2 ∷ 1 ∷ 0 ∷ 0 ∷ 0 ∷ 0 ∷ 0 ∷ 0 ∷ 0 ∷ 3 ∷ 1 ∷ 0 ∷ 0 ∷ 0
        ∷ 0 ∷ 0 ∷ 0 ∷ 0 ∷ 0x1e ∷ [] }
    ensures mark { entry_bytes (Mark (record { 0 = 1 })) ≡ 4 ∷ 0 ∷ 0 ∷ 0 ∷ 0 ∷ 0 ∷ 0 ∷ 0 ∷ 1 ∷ [] }
    ensures number { value_bytes (Number (record { units = pos 1235; scale = 2 }))
        ≡ 4 ∷ 2 ∷ 0 ∷ 0 ∷ 0 ∷ 0 ∷ 0 ∷ 0 ∷ 4 ∷ 0xd3 ∷ [] }
{}
