ghost use Rattle.std.specs.Prelude.{◌≡◌, ◌<◌, length, All, None, IfOk, IfErr, OnOk};
ghost use Rattle.std.specs.Map.{keys_of};
ghost use Rattle.ld_term.specs.TreeTexts.{written};
ghost use Rattle.term_graph.specs.TermLists.{term_at};
ghost use Rattle.term_graph.specs.Asks.{answered, ask_all, IsRefusal, IsStopped};
ghost use Rattle.term_graph.specs.Requests.{first_unknown, meaning, text_requests, named_terms, IsFront};

use crate::error::GraphErr;
use crate::graph::TermGraph;
use crate::names::Names;
use crate::node::NodeId;
use ld_term::Tree;

impl TermGraph {
    /// The number of a term, whose products are asked for in postorder, the left part first.
    ///
    /// A name stands for its term, and asks for nothing. After a refusal the products that were made stay.
    pub fn insert(&mut self, term: &Tree, names: &Names) -> Result<NodeId, GraphErr>
        requires known { first_unknown (keys_of names.now) (written term.now) ≡ None }
        requires numbers { All (λ own. own.1 < length self.old) names.now }
        ensures number { IfOk result
            (λ n. (n < length self.new)
            × (term_at self.new n ≡ meaning (named_terms self.old names.now) (written term.now))) }
        ensures asked { OnOk result
            (ask_all (answered self.old) (text_requests (named_terms self.old names.now) (written term.now))
            ≡ answered self.new) }
        ensures refused { IfErr result
            (IsRefusal (ask_all (answered self.old)
            (text_requests (named_terms self.old names.now) (written term.now)))) }
        ensures stopped { IfErr result
            (IsStopped self.old self.new
            (text_requests (named_terms self.old names.now) (written term.now))) }
        ensures kept { IsFront self.old self.new }
    {
        match term {
            Tree::X => Ok(self.var()),
            Tree::Named { name, .. } => {
                let Some(number) = names.find(name) else {
                    unreachable!();
                };
                Ok(number)
            }
            Tree::Product(left, right) => {
                let left = self.insert(left, names)?;
                let right = self.insert(right, names)?;
                self.product(left, right)
            }
        }
    }
}
