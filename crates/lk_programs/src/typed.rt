ghost use Rattle.lk_programs.specs.Program.{program_over, IsTypedOver, IsTypedOver-prop};

use crate::program::{Global, Method, NodePlace, RecordTy};
use slang_tree::Text;
use sqlite_items::Items;

/// A program: its files, records and globals, its methods in the order of their names, and the place of each node.
///
/// It is well typed: its claims and expressions have their types and are not too high, its methods are in order, each modifies
/// what it and what it calls assign, no step of a proof stands in too many blocks, and the numbers of nodes and files in it
/// are there.
#[derive(Drop)]
pub struct Typed {
    pub files: Items<Text>,
    pub records: Items<RecordTy>,
    pub globals: Items<Global>,
    pub methods: Items<Method>,
    pub nodes: Items<NodePlace>,
    pub ghost well_typed: { IsTypedOver (program_over records globals methods) nodes files } by { IsTypedOver-prop (program_over records globals methods) nodes files },
}

impl Typed {
    ghost use Rattle.std.specs.Prelude.{◌≡◌};
    ghost use Rattle.lk_programs.specs.Typed.{program_tree};

    /// The program of these parts.
    pub fn new(
        files: Items<Text>,
        records: Items<RecordTy>,
        globals: Items<Global>,
        methods: Items<Method>,
        nodes: Items<NodePlace>,
    ) -> Typed
        requires { IsTypedOver (program_over records globals methods) nodes files }
        ensures program { program_tree result ≡ program_over records globals methods }
        ensures files { result.files ≡ files }
        ensures records { result.records ≡ records }
        ensures globals { result.globals ≡ globals }
        ensures methods { result.methods ≡ methods }
        ensures nodes { result.nodes ≡ nodes }
    {
        Typed {
            files,
            records,
            globals,
            methods,
            nodes,
        }
    }
}
