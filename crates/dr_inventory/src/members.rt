use dr_base::Rows;

/// For each protection group, in ascending order, the numbers of what it holds.
#[derive(Debug, Drop, PartialEq, Eq)]
pub struct Members {
    /// The devices of its datastores.
    pub pairs: Rows<Rows<u32>>,
    /// The machines whose datastores all lie in it.
    pub machines: Rows<Rows<u32>>,
}
