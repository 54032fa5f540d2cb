// Rewriting: a law at a node, if its shape is there, and the new case file.
ghost use Rattle.case_model.specs.Book.{rewrites};
ghost use Rattle.case_model.specs.Run.{Promised};
ghost use Rattle.case_file.specs.EnumNumbers.{written_reply};

use case_file::{AcceptedCase, Case, Reason, Refusal};
use law_shapes::shape_at;
use rewritten_file::Plan;

// Rewrites an accepted case.
fn rewrite_accepted(
    case: AcceptedCase,
    law: usize,
    node: usize,
    out: &mut [u8],
) -> Result<usize, Refusal>
    ensures { Promised case.entry.file.now (record {
      asked = rewrites law node;
      before = out.old;
      after = out.new;
      told = written_reply result;
    }) }
{
    let file = case.file();
    let m = case.nodes();
    if m <= node {
        return Err(Reason::Shape.into());
    }
    let Some(shape) = shape_at(file, law, node) else {
        return Err(Reason::Shape.into());
    };
    let nodes = m + shape.added();
    if Case::NODES < nodes {
        return Err(Reason::TooManyNodes.into());
    }
    let plan = Plan {
        shape,
        j: node,
        nodes,
    };
    let sizes = plan.sizes(file);
    let all = sizes.whole();
    if out.len() < all {
        return Err(Reason::Room.into());
    }
    Ok(plan.write(file, sizes, out))
}

// Rewrites node `node` by law `law`, and writes the new case.
#[tactic(auto, using(case_model::proofs::Replying::refused_too), unfolding(case_model::specs::Rewriting::rewriting))]
pub fn rewrite(file: &[u8], law: usize, node: usize, out: &mut [u8]) -> Result<usize, Refusal>
    ensures { Promised file.now (record {
      asked = rewrites law node;
      before = out.old;
      after = out.new;
      told = written_reply result;
    }) }
{
    let checked = Case::accept(file);
    let Ok(case) = checked else {
        return Err(checked.unwrap_err());
    };
    rewrite_accepted(case, law, node, out)
}
