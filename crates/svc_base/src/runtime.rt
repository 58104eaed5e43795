//! What the runtime of a service is set up with.

/// How the widths of a poll time histogram's buckets grow.
#[derive(Clone, Copy, PartialEq, Eq, Debug)]
pub enum RuntimeMetricsPollTimeHistogramScale {
    /// All buckets are equally wide.
    Linear,
    /// Each bucket is wider than the one before it.
    Log,
}

/// What a runtime measures.
#[derive(Clone, Copy, PartialEq, Eq, Debug, Default)]
pub struct RuntimeMetricsOpts {
    /// Whether there is a histogram of how long polls take.
    pub poll_time_histogram: bool,
    /// How its buckets grow. The runtime decides where unset.
    pub poll_time_histogram_scale: Option<RuntimeMetricsPollTimeHistogramScale>,
    /// The width of its first bucket, in microseconds. The runtime decides where unset.
    pub poll_time_histogram_resolution: Option<u64>,
    /// How many buckets it has. The runtime decides where unset.
    pub poll_time_histogram_buckets: Option<u64>,
}

/// The options of a service's runtime.
#[derive(Clone, Copy, PartialEq, Eq, Debug, Default)]
pub struct RuntimeOpts {
    pub metrics: RuntimeMetricsOpts,
    /// Whether the runtime's alternative timer is used.
    pub enable_alt_timer: bool,
}
