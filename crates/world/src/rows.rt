//! The definitions computed on worked schedules.

ghost use Rattle.std.specs.Prelude.{◌≡◌, [], ◌∷◌, map};
ghost use Rattle.transcript.specs.declared.line.Line.TheVariants.{End};
ghost use Rattle.world.specs.Rows.{three, first, first_lines, again, again_lines, swapped, swapped_lines, listed, listed_lines, lost, lost_lines, two, first_of_two, one, alone, alone_lines, ring_of, sizes, sized_ring, round_of, Round, sent, again_asked, counting, counting_lines, second, second_lines};
ghost use Rattle.world.specs.System.{trace, start};

/// No event prints its end alone.
pub fn no_event()
    ensures { trace three [] ≡ End 0 ∷ [] }
{}

/// A command that is proposed, voted for and passed round.
pub fn first_row()
    ensures { trace three first ≡ first_lines }
{}

/// Frames delivered again and out of order.
pub fn twice()
    ensures { trace three again ≡ again_lines }
{}

/// The second instance decided before the first.
pub fn reordered()
    ensures { trace three swapped ≡ swapped_lines }
{}

/// A frame that is shown, and one that isn't there.
pub fn listed_row()
    ensures { trace three listed ≡ listed_lines }
{}

/// A frame that is lost, and delivered later.
pub fn lost_row()
    ensures { trace three lost ≡ lost_lines }
{}

/// A ring of two acceptors.
pub fn two_row()
    ensures { trace two first ≡ first_of_two }
{}

/// A ring of one acceptor learns what it proposes at once, and sends nothing.
pub fn alone_row()
    ensures { trace one alone ≡ alone_lines }
{}

/// Rings of one to seven acceptors: in which order they learn a command, and how many frames that takes.
pub fn each_size()
    ensures lines { map (λ round. trace (sized_ring round) first) sizes ≡ map round_of sizes }
    ensures frames { map (λ round. sent (start (sized_ring round)) first) sizes ≡ map (λ round. round.frames) sizes }
{}

/// A command that comes again isn't proposed again.
pub fn asked_again()
    ensures { sent (start three) again_asked ≡ 2 }
{}

/// Each client counts its own commands.
pub fn clients_count()
    ensures { trace (ring_of 3 one.acceptors) counting ≡ counting_lines }
{}

/// The first command is lost, and the second takes the first instance.
pub fn never_proposed()
    ensures { trace one second ≡ second_lines }
{}
