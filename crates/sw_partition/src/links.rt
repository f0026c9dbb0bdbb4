//! Tables of links: each element is linked to itself or to one below it, and elements that links
//! connect are in one class.
ghost use Rattle.std.specs.Prelude.{◌<◌, length};
ghost use Rattle.sw_partition.specs.Tables.{AreLabels, AreLinks, IsSunk, IsLinked, IsFlattened};

/// Makes a table of links of a table of labels, with the same classes.
pub(crate) fn sink(labels: &mut [u32])
    requires { AreLabels labels.old }
    ensures { IsSunk labels.old labels.new }
{
    for x in 0..labels.len() {
        let label = labels[x] as usize;
        if label > x {
            let first = labels[label].min(x as u32);
            labels[label] = first;
            labels[x] = first;
        }
    }
}

/// Puts the classes of the two elements together (Rem's algorithm; Dijkstra, A Discipline of
/// Programming, 1976). The links on the way are shortened, so that many calls take about as many
/// steps as there are calls and elements.
pub(crate) fn link(links: &mut [u32], x: usize, y: usize)
    requires x { x < length links.old }
    requires y { y < length links.old }
    requires links { AreLinks links.old }
    ensures { IsLinked x y links.old links.new }
{
    let (mut u, mut v) = (x, y);
    while links[u] != links[v] {
        if links[u] < links[v] {
            (u, v) = (v, u);
        }
        let next = links[u];
        links[u] = links[v];
        u = next as usize;
    }
}

/// Labels each element by the one to which its links lead in the end.
pub(crate) fn flatten(links: &mut [u32])
    requires { AreLinks links.old }
    ensures { IsFlattened links.old links.new }
{
    for x in 0..links.len() {
        links[x] = links[links[x] as usize];
    }
}
