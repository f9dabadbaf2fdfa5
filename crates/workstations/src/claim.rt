// The claim over whole lists of calls, and that no accepted start is in vain.
ghost use Rattle.workstations.specs.Joint.{Joint, Progress};

// The joint claim is the contract; the function does nothing.
pub fn joint()
    ensures { Joint }
{}

// What can be done with any table that was opened is the contract; the function does nothing.
pub fn progress()
    ensures { Progress }
{}
