//! What a caller passes, laid out as C has it: a slice is a pointer and a length, and null may stand for an empty one.

/// A text: bytes that have to be UTF-8.
#[repr(C)]
#[derive(Clone, Copy)]
pub struct PassedText<'a> {
    pub bytes: &'a [u8],
}

/// A question as a SubjectAccessReview has it (Kubernetes API, authorization.k8s.io/v1). No group is added to the groups.
/// If a path is named, it is asked about the path, and only user, groups and verb are read beside it.
#[repr(C)]
#[derive(Clone, Copy)]
pub struct CQuestion<'a> {
    pub user: &'a [u8],
    pub groups: &'a [PassedText<'a>],
    /// Empty: cluster-wide.
    pub namespace: &'a [u8],
    pub verb: &'a [u8],
    /// Empty: the core group.
    pub group: &'a [u8],
    /// `RESOURCE/SUBRESOURCE` stands for the two, if no subresource is named.
    pub resource: &'a [u8],
    pub subresource: &'a [u8],
    pub name: &'a [u8],
    pub path: &'a [u8],
}

/// A call: which answer is wanted, and of what.
#[repr(C)]
#[derive(Clone, Copy)]
pub struct Call<'a> {
    /// Settled: whether each aggregated role has its union. 0: whether the policy is settled, 1: a decision, 2: a decision and
    /// its line. From 3 on a text, and whether the policy is settled: 3: who may do something, 4: the same anywhere, 5: what
    /// somebody has, 6: who may gain more, 7: who can become whom. 8: whether somebody lacks nothing of a role, and what they
    /// lack. 9: whether other objects give nothing more, and both policies are settled, and what they give.
    pub wants: u32,
    /// How a text is printed. 0: in columns, 1: as a table in Markdown, 2: as a JSON object a line.
    pub form: u32,
    /// Whose role is meant, `Role` or `ClusterRole` is the resource, and its name the name.
    pub question: CQuestion<'a>,
    /// Other objects, or to whom paths lead.
    pub other: &'a [u8],
    /// The kinds of rights that paths leave out.
    pub without: &'a [PassedText<'a>],
}
