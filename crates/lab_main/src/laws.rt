//! Laws of what is told: each function does nothing, and its contract is the law.
ghost use Rattle.lab_main.specs.InWords.{ToldInWords};
ghost use Rattle.lab_main.specs.Runs.{ToldIsRun};

/// The world after each line is the machine's: that behind the commands of the lines until then, as plain lines, each
/// answered by a step of the machine, or by 55 with the world as it was. Nothing else changes it.
pub fn told_is_a_run()
    ensures { ToldIsRun }
{}

/// What is told of lines is a transcript in words: to each line there is a reply, each answer of a reply is told in
/// words behind what is routelab's own, and the bytes of the replies are a transcript that routesim may write of the
/// plain lines.
pub fn told_in_words()
    ensures { ToldInWords }
{}
