ghost use Rattle.std.specs.Prelude.{◌≡◌, ℕ, List, ◌++◌, Option};
ghost use Rattle.sw_check_parts.specs.declared.outcome.Outcome.{Outcome};
ghost use Rattle.sw_check_parts.specs.Course.{AreOf, Read, Underway};
ghost use Rattle.sw_check_parts.specs.Lawful.{IsPrefixOf};
ghost use Rattle.sw_check.specs.Claims.{Ending, Ends};
ghost use Rattle.sw_check.specs.Reply.{Reply, course_of};
ghost use Rattle.sw_check_words.specs.Words.{Command};

use crate::PROGRAM_LIMIT;
use sw_cert::CERTIFICATE_LIMIT;
use sw_clocks::MOST_JOBS;

/// Over any files the words have one reply, and the same files are read for it.
pub fn words_have_one_reply()
    ensures some_reply { (command : Option Command) (files : List ℕ → List ℕ)
        → (reads : List Read) × (outcome : Outcome) × AreOf files reads
        × Reply command reads outcome }
    ensures one_reply { (command : Option Command) (files : List ℕ → List ℕ)
        (reads others : List Read) (a b : Outcome)
        → AreOf files reads → AreOf files others → Reply command reads a → Reply command others b
        → (reads ≡ others) × (a ≡ b) }
    // What was read before there is a reply is a prefix of what is read for it.
    ensures read_in_order { (command : Option Command) (files : List ℕ → List ℕ)
        (reads others : List Read) (outcome : Outcome)
        → AreOf files reads → AreOf files others → course_of command reads Underway
        → Reply command others outcome
        → IsPrefixOf reads others }
    // Whatever was read, there may be a reply.
    ensures goes_on { (command : Option Command) (reads : List Read)
        → course_of command reads Underway
        → (others : List Read) × (outcome : Outcome) × Reply command (reads ++ others) outcome }
    // Over any files a command that goes to its end ends in one way.
    ensures one_end { (files : List ℕ → List ℕ) (command : Command) (a b : Ending)
        → Ends a files command → Ends b files command → a ≡ b }
{}

/// The limit that the definitions of replies take from here.
pub fn program_limit()
    ensures bytes { PROGRAM_LIMIT ≡ 262144 }
{}

/// The limit of a certificate.
pub fn certificate_limit()
    ensures bytes { CERTIFICATE_LIMIT ≡ 4194304 }
{}

/// The number of jobs up to which their accesses are put in order.
pub fn order_limit()
    ensures jobs { MOST_JOBS ≡ 256 }
{}
