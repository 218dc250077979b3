ghost use Rattle.read_cluster.specs.OneLength.{ClusterHasOneLength};

/// No cluster has two lengths.
pub fn cluster_has_one_length()
    ensures { ClusterHasOneLength }
{}
