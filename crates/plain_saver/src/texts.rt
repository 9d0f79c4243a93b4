//! Rows of statistics nodes that are kept back until there are enough of them for one write.

ghost use Rattle.std.specs.Prelude.{◌≡◌, ◌++◌, ◌≤◌, ◌↔◌, [], length, All, IfOk, OnOk, OnErr, IsTrue};
ghost use Rattle.nd_base.specs.GraphRules.{IsBetween};
ghost use Rattle.plain_saver.specs.Texts.{text_at, with_text};

use nd_base::{Bytes, OutOfMemory, Plan};
use std::alloc::Global;
use std::marker::Model;
use std::mem;

/// How many bytes are enough for one write.
const ENOUGH: usize = 262_144;

/// The bytes that are kept back at each node of a graph. Contracts see the list of them, one for each node in the graph's order.
#[derive(Drop)]
pub struct Texts {
    texts: Vec<Bytes>,
}

impl Model for Texts {
    ghost use Rattle.std.specs.Prelude.{List, ℕ};

    ghost Value = { List (List ℕ) };

    ghost view = { λ t. t.texts.items };
}

impl Texts {
    /// Nothing is kept back at the nodes of a plan's graph.
    ///
    /// # Errors
    ///
    /// Only for want of memory.
    pub fn new(alloc: Global, plan: &Plan) -> Result<Texts, OutOfMemory>
        ensures size { IfOk result (λ texts. length texts ≡ length plan.now.graph.nodes) }
        ensures empty { IfOk result (λ texts. All (λ text. text ≡ []) texts) }
    {
        let nodes = plan.graph.nodes.as_slice();
        let mut texts = Vec::with_capacity(alloc, nodes.len())?;
        for _node in nodes {
            texts.push(Bytes::new(Vec::new(alloc)))?;
        }
        Ok(Texts { texts })
    }

    /// What is kept back at a node.
    pub fn text(&self, node: u32) -> &[u8]
        requires { IsBetween 1 (length self.now) node }
        ensures { result.now ≡ text_at self.now node }
    {
        self.texts[node as usize - 1].list()
    }

    /// Whether it is enough for one write.
    pub fn is_enough(&self, node: u32) -> bool
        requires { IsBetween 1 (length self.now) node }
        ensures { IsTrue result ↔ 262144 ≤ length (text_at self.now node) }
    {
        self.text(node).len() >= ENOUGH
    }

    /// Keeps back a row more at a node.
    ///
    /// # Errors
    ///
    /// Only for want of memory, and then nothing has changed.
    pub fn add(&mut self, alloc: Global, node: u32, row: &[u8]) -> Result<(), OutOfMemory>
        requires { IsBetween 1 (length self.old) node }
        ensures ok { OnOk result (self.new ≡ with_text self.old node (text_at self.old node ++ row.now)) }
        ensures err { OnErr result (self.new ≡ self.old) }
    {
        let text = &mut self.texts[node as usize - 1];
        let mut bytes = mem::replace(text, Bytes::new(Vec::new(alloc))).into_list();
        let added = bytes.extend_from_slice(row);
        *text = Bytes::new(bytes);
        added?;
        Ok(())
    }

    /// Keeps back nothing at a node any more. The memory stays for later rows.
    pub fn empty(&mut self, alloc: Global, node: u32)
        requires { IsBetween 1 (length self.old) node }
        ensures { self.new ≡ with_text self.old node [] }
    {
        let text = &mut self.texts[node as usize - 1];
        let mut bytes = mem::replace(text, Bytes::new(Vec::new(alloc))).into_list();
        bytes.clear();
        *text = Bytes::new(bytes);
    }
}
