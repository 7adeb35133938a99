// The laws of the format, each on a function that does nothing else than state it.
ghost use Rattle.model.specs.Laws.{ReadsExactly, FaultsInTime, FaultsForGood};

// A model is read as a tree exactly if its bytes are that tree's encoding and nothing more, the tree is at most 64 deep,
// and its places are where its items start.
pub fn reads_exactly()
    ensures { ReadsExactly }
{}

// What stands before a fault could still have become a model.
pub fn faults_in_time()
    ensures { FaultsInTime }
{}

// A fault inside the bytes is final.
pub fn faults_for_good()
    ensures { FaultsForGood }
{}
