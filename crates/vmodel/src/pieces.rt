// Print tasks: which actions they are, and what they show (IEEE 1364-2005, 17.1).

ghost use Rattle.std.specs.Prelude.{◌≡◌};
ghost use Rattle.vmodel.specs.Step as spec;
ghost use Rattle.vmodel.specs.InnerSilent as silent;

use vdesign::action::Action;
use vdesign::design::Design;
use vdesign::print::Piece;

/// Whether an action is a print task (17.1).
pub fn is_print(action: &Action) -> bool
    ensures { result ≡ silent.is_print action.now }
{
    matches!(action, Action::Print { .. })
}

// What the action of a print task shows.
fn pieces_of<'d>(action: &'d Action) -> &'d [Piece]
    ensures { result.now ≡ spec.pieces_of (Some action.now) }
{
    match action {
        Action::Print { pieces, .. } => pieces.as_slice(),
        _ => &[],
    }
}

/// What the print task of this place shows; nothing where another action stands there.
pub fn pieces_at<'d>(design: &'d Design, place: usize) -> &'d [Piece]
    ensures { result.now ≡ spec.pieces_at design.now place }
{
    match design.actions.get(place) {
        None => &[],
        Some(action) => pieces_of(action),
    }
}
