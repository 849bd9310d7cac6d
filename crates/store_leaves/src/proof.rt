use lin_cert::Cert;

/// Why a case cannot hold. Literals are named by their places in the case, from 0.
#[derive(Drop)]
pub enum LeafProof {
    /// The rows of the case have no whole-number solution.
    Cert(Cert),
    /// The second literal is the negation of the first, but for the forms of their numbers.
    Pair(u32, u32),
    /// The literal is `F`, `Not T`, or says that a sequence is unequal to itself.
    False(u32),
}
