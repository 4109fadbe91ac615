// What inserting does to a plan's meaning: the definition (specs/Shift) and the theorems of demand 3 on meaning, and no code, so nothing is taken or refused.
// Rewriting, placing and editor cite the theorems. They stand apart so that an edit of demand 3's statement proves these alone, and one of the editor's code
// does not prove them again. The bytes that inserting writes (`insert_bytes`) are defined in format, where the one table of worked cases is.
#![tactic(auto)]
