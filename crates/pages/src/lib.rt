// What must be believed of page entries (document 02, Item 12), and nothing else: the declared type here, the definitions
// and the claims in specs/. There is no function. Proofs of the claims are in proofs/.
#![tactic(auto)]

// A page entry: the addresses [address, address + size) show the mapping's object from the offset on.
#[derive(Clone, Copy)]
pub struct Entry {
    pub address: u64,
    pub offset: u64,
    pub size: u64,
}
