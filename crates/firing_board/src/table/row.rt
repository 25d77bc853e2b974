use graph_firing::OpenJob;
use sdf_level::List;

/// An open job, and where it stands.
pub(crate) struct Row {
    /// The job.
    pub(crate) job: OpenJob,
    /// The key of the row of the job round it, of which an item called this job. The top job has none.
    pub(crate) upper: Option<usize>,
    /// The number of the item that called the job, then the place of the job round it. That of the top job is empty.
    pub(crate) place: List<usize>,
    /// The path of the job: of each call on the way from the top job to this one the place of the actor among all actors of its
    /// graph, and the number of its firing.
    pub(crate) steps: List<(u32, u32)>,
}
