// Nothing runs here: the table of files is in specs/Table.antt, the theorem in proofs/Files.antt.
#![tactic(auto)]
