// What each of m known packets counts for in any other.
ghost use Rattle.std.specs.Prelude.{◌≡◌, ◌+◌, ◌<◌, length};
ghost use Rattle.code.specs.Plans.{view};
ghost use Rattle.receiver.specs.Solves.{Numbered, Placed, ProductsAt, scale_in, Weighs, Parts};

use super::Solver;
use code::plan::{MOST_PACKETS, Plan};
use field::Field;

// The product of the differences of a number from nodes, and its derivative.
#[derive(Clone, Copy)]
struct Products {
    away: u16,
    slope: u16,
}

fn products_at<F: Field>(field: &F, nodes: &[u16], z: u16) -> Products
    ensures { ProductsAt (F.ops field.now) nodes.now z result.away result.slope }
{
    let mut away = 1;
    let mut slope = 0;
    for node in nodes {
        let d = field.difference(z, *node);
        slope = field.sum(away, field.product(d, slope));
        away = field.product(d, away);
    }
    Products { away, slope }
}

// What the row of that number is multiplied by to be the value at its node of the message's polynomial.
fn scale_of<F: Field>(field: &F, plan: &Plan, number: usize) -> u16
    requires within { number < (view plan.now).m + (view plan.now).r }
    ensures { result ≡ scale_in (F.ops field.now) (view plan.now) number }
{
    let nodes = plan.nodes();
    let products = products_at(field, &nodes[..plan.data_count()], nodes[number]);
    if number < plan.data_count() {
        products.slope
    } else {
        products.away
    }
}

// The nodes of the packets of those numbers.
// Kept, here and below: with no heap on the device an array has room for the most packets, and the first places count; its
// length stands in each contract, since a caller knows it by nothing else; it is written by index, since after a `zip` over
// `iter_mut` a proof knows no element.
fn nodes_of(plan: &Plan, numbers: &[u16]) -> [u16; MOST_PACKETS]
    requires numbered { Numbered (view plan.now) numbers.now }
    ensures room { length result ≡ 64 }
    ensures answers { Placed (view plan.now) numbers.now result }
{
    let all = plan.nodes();
    let mut nodes = [0; MOST_PACKETS];
    for (t, number) in numbers.iter().enumerate() {
        nodes[t] = all[usize::from(*number)];
    }
    nodes
}

// What the packets of those numbers count for in any other.
pub(super) fn weights_of<F: Field>(field: &F, plan: &Plan, numbers: &[u16]) -> [u16; MOST_PACKETS]
    requires numbered { Numbered (view plan.now) numbers.now }
    ensures room { length result ≡ 64 }
    ensures answers { Weighs (F.ops field.now) (view plan.now) numbers.now result }
{
    let nodes = nodes_of(plan, numbers);
    let mut weights = [0; MOST_PACKETS];
    for (t, number) in numbers.iter().enumerate() {
        let products = products_at(field, &nodes[..numbers.len()], nodes[t]);
        let scale = scale_of(field, plan, usize::from(*number));
        weights[t] = field.product(field.inverse(products.slope), scale);
    }
    weights
}

impl<'a, F: Field> Solver<'a, F> {
    ghost use Rattle.receiver.specs.Solvers.{plan_in};

    // What each of the packets counts for in the packet of that number, which is none of them.
    pub(super) fn parts(&self, number: usize) -> [u16; MOST_PACKETS]
        requires within { number < (plan_in self.now).m + (plan_in self.now).r }
        ensures room { length result ≡ 64 }
        ensures answers { Parts (F.ops self.now.field.now) (plan_in self.now)
            self.now.numbers.now number result }
    {
        let field = self.field;
        let count = self.numbers.len();
        let nodes = nodes_of(self.plan, self.numbers);
        let node = self.plan.nodes()[number];
        let away = products_at(field, &nodes[..count], node).away;
        let common = field.product(field.inverse(scale_of(field, self.plan, number)), away);
        let mut parts = [0; MOST_PACKETS];
        for (t, weight) in self.weights[..count].iter().enumerate() {
            let near = field.inverse(field.difference(node, nodes[t]));
            parts[t] = field.product(common, field.product(near, *weight));
        }
        parts
    }
}
