ghost use Rattle.pf_jobs.specs.Examples.{WorkedJobs, WorkedLoads};

/// The loads of the worked examples, byte for byte.
pub fn worked_loads_are_told()
    ensures { WorkedLoads }
{}

/// The jobs of the worked examples, byte for byte.
pub fn worked_jobs_are_told()
    ensures { WorkedJobs }
{}
