//! What the proofs about the pager share: the working form of soundness, and the rules by which a
//! change of one frame, process, entry, page, block or flight leaves the facts about all others.
#![tactic(auto)]
