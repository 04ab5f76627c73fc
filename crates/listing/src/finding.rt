// A finding: `g` length, or `c` node, node, touch, touch, vertex, vertex.
ghost use Rattle.rules.specs.Listing.{length_text, node_text, finding_text};
ghost use Rattle.listing.specs.Written.{HasRoom, Puts};

use crate::line::Line;
use rules::finding::{Finding, Length};
use rules::index::NodeIndex;

impl Line<'_> {
    fn put_length(&mut self, by: Length)
        requires { HasRoom 12 self.old }
        ensures { Puts 12 (length_text by) self.old self.new }
    {
        match by {
            Length::NoLimit => self.put_text(b" max"),
            Length::Ahead(n) => self.put_number(n),
            Length::Behind(n) => {
                self.put_text(b" -");
                self.put_decimal(n);
            }
        }
    }

    // "An absent node or touch is `-`, the boundary"
    fn put_node(&mut self, node: Option<NodeIndex>)
        requires { HasRoom 11 self.old }
        ensures { Puts 11 (node_text node) self.old self.new }
    {
        match node {
            None => self.put_text(b" -"),
            Some(n) => self.put_number(u32::from(n.0)),
        }
    }

    pub(crate) fn put_finding(&mut self, finding: Finding)
        requires { HasRoom 68 self.old }
        ensures { Puts 68 (finding_text finding) self.old self.new }
    {
        match finding {
            Finding::GrowLength(by) => {
                self.put_text(b" g");
                self.put_length(by);
            }
            Finding::Conflict(a, b) => {
                self.put_text(b" c");
                self.put_node(a.node);
                self.put_node(b.node);
                self.put_node(a.touch);
                self.put_node(b.touch);
                self.put_number(u32::from(a.vertex.0));
                self.put_number(u32::from(b.vertex.0));
            }
        }
    }
}
