// The format of plans, PHP-serialized values: definitions in specs/ (Lib.antt there is their reading order), and in proofs/ the theorems that tie them and the
// worked cases. Every crate but decimal rests on it. The code of reading stands in crates of its own, so that an edit of a definition does not prove it again.
// For code it has the nine kinds by their tags, the limits and the words of a node: constants, and questions about a tag, which may be any byte. What a refusal
// refuses is an enum, whose numbers are the paper's. Reader and placing ask; keys asks `Kind::has_text`, where a key's text is looked for.
// Proof modules are checked in the order of their names: Cases comes before those that rest on the definitions' text, so that the first error of an edit of a
// definition is the worked case that it breaks, and not a proof that no longer fits the text. Hence the names Inversion, NormalForm and NormalTable.
#![tactic(auto)]

pub mod codes;
pub mod kind;
pub mod limits;
pub mod table;
