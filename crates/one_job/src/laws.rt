// Laws of the buffers of jobs, for whoever proves something above them. The functions do nothing; their contracts are the laws.
ghost use Rattle.one_job.specs.Images.{ImagesHoldTokens};
ghost use Rattle.one_job.specs.LiveLaws.{LiveBuffersAreApart, BuffersAreWithin, CellsHaveOneOwner, LentBuffersAreLive, FullBuffersAreLive};

/// A buffer is live from the claim of the node that writes it to the finish of the node that reads it. Two buffers that are
/// live at once share no cell, and each ends within the placement's height. What is lent to a claimed node is live, and so is
/// what holds the tokens of a finished node that aren't read yet.
pub fn live_buffers_are_apart()
    ensures apart { LiveBuffersAreApart }
    ensures within { BuffersAreWithin }
    ensures lent { LentBuffersAreLive }
    ensures full { FullBuffersAreLive }
{}

/// After any claims and finishes, each of which was allowed, the cells at the buffer of a node that is finished without a
/// fault hold what it gave there, as long as the node that reads the buffer isn't finished. The cells are those of a block in
/// which each finish wrote the node's outputs at the offsets of their edges, one after the other.
pub fn full_buffers_hold_tokens()
    ensures { ImagesHoldTokens }
{}

/// No cell of a job has two owners: of what is lent to its claimed nodes no cell lies in two leases.
pub fn cells_have_one_owner()
    ensures { CellsHaveOneOwner }
{}
