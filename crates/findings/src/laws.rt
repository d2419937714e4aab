// What the findings of a pass are, in every layout.
ghost use Rattle.findings.specs.Laws.{KeepsAll, PassFound, SameRecord, NamesTold, NamesFound, LabelsApart};

use layout::Layout;

// Where the acts fit, the findings are just the record that the put words make, and their number; so the answer of a pass and
// what it kept tell what was found. The number of the pass changes no record. A record's labels are the acts' labels in order.
pub fn findings_hold<L: Layout>()
    ensures keeps { KeepsAll L.Layout.meaning }
    ensures found { PassFound L.Layout.meaning }
    ensures same { SameRecord L.Layout.meaning }
    ensures told { NamesTold L.Layout.meaning }
    ensures names { NamesFound L.Layout.meaning }
    ensures apart { LabelsApart L.Layout.meaning }
{}
