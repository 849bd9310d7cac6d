ghost use Rattle.byte_faults.specs.Laws.{FaultOrTree, FaultsOfBytes, TreesOfBytes};

/// Where the machine stops on the tokens of bytes is the first fault of the bytes.
pub fn faults_of_bytes()
    ensures { FaultsOfBytes }
{}

/// What the machine reads of the tokens of bytes is the tree of the bytes.
pub fn trees_of_bytes()
    ensures { TreesOfBytes }
{}

/// Bytes on whose tokens the machine does not stop have a tree.
pub fn fault_or_tree()
    ensures { FaultOrTree }
{}
