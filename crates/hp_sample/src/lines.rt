//! The lines of a graph.

ghost use Rattle.std.specs.Prelude.{◌≡◌, [], ◌∷◌, ◌++◌, map, length, IfOk, OnOk};
ghost use Rattle.hp_sample.specs.Sample.{behind_spaces, drawn, edge_text, ended, graph_line, lines_of, question_line, questions, spaced, state_after, vertex_pairs, vertices};

use crate::draws::drawn_graph;
use hp_algebra::NoMem;
use itoa::Buffer;

/// Appends the lines of graph `i`, drawn from a state, and gives the state after it.
pub fn push_graph(i: u32, state: u32, text: &mut Vec<u8>) -> Result<u32, NoMem>
    ensures lines { OnOk result (text.new.items ≡ text.old.items ++ ended (lines_of i (drawn (vertex_pairs (vertices i)) state))) }
    ensures state { IfOk result (λ after. after ≡ state_after (length (vertex_pairs (vertices i))) state) }
{
    let graph = drawn_graph(*text.allocator(), vertices(i), state)?;
    push_graph_line(i, &graph.edges, text)?;
    push_questions(i, text)?;
    Ok(graph.state)
}

/// How many vertices graph i has.
fn vertices(i: u32) -> u32
    ensures { result ≡ vertices i }
{
    if i <= 20 { 5 } else { 8 }
}

/// Appends the line that names graph i.
fn push_graph_line(i: u32, edges: &[(u64, u64)], text: &mut Vec<u8>) -> Result<(), NoMem>
    ensures { OnOk result (text.new.items ≡ text.old.items ++ graph_line i edges.now ++ 10 ∷ []) }
{
    let mut buffer = Buffer::new();
    text.extend_from_slice(b"let G")?;
    text.extend_from_slice(buffer.format(i).as_bytes())?;
    text.extend_from_slice(b" = graphic ")?;
    text.extend_from_slice(buffer.format(vertices(i)).as_bytes())?;
    text.extend_from_slice(b" [")?;
    push_edges(edges, text)?;
    text.extend_from_slice(b"]\n")?;
    Ok(())
}

/// Appends the edges with a space between each two.
fn push_edges(edges: &[(u64, u64)], text: &mut Vec<u8>) -> Result<(), NoMem>
    ensures { OnOk result (text.new.items ≡ text.old.items ++ spaced (map edge_text edges.now)) }
{
    match edges {
        [] => Ok(()),
        [first, rest @ ..] => {
            push_edge(*first, text)?;
            push_later_edges(rest, text)
        }
    }
}

/// Appends the edges with a space before each.
fn push_later_edges(edges: &[(u64, u64)], text: &mut Vec<u8>) -> Result<(), NoMem>
    ensures { OnOk result (text.new.items ≡ text.old.items ++ behind_spaces (map edge_text edges.now)) }
{
    for edge in edges {
        text.extend_from_slice(b" ")?;
        push_edge(*edge, text)?;
    }
    Ok(())
}

/// Appends an edge.
fn push_edge(edge: (u64, u64), text: &mut Vec<u8>) -> Result<(), NoMem>
    ensures { OnOk result (text.new.items ≡ text.old.items ++ edge_text edge) }
{
    let mut buffer = Buffer::new();
    text.extend_from_slice(buffer.format(edge.0).as_bytes())?;
    text.extend_from_slice(b"-")?;
    text.extend_from_slice(buffer.format(edge.1).as_bytes())?;
    Ok(())
}

/// Appends the questions on graph i.
fn push_questions(i: u32, text: &mut Vec<u8>) -> Result<(), NoMem>
    ensures { OnOk result (text.new.items ≡ text.old.items ++ ended (map (question_line i) (questions i))) }
{
    if i <= 20 {
        push_question(b"poincare", i, text)?;
        push_question(b"nbc", i, text)?;
        push_question(b"free", i, text)
    } else {
        push_question(b"flats", i, text)?;
        push_question(b"poincare", i, text)?;
        push_question(b"nbc", i, text)
    }
}

/// Appends the line of a question on graph i.
fn push_question(word: &[u8], i: u32, text: &mut Vec<u8>) -> Result<(), NoMem>
    ensures { OnOk result (text.new.items ≡ text.old.items ++ question_line i word.now ++ 10 ∷ []) }
{
    let mut buffer = Buffer::new();
    text.extend_from_slice(word)?;
    text.extend_from_slice(b" G")?;
    text.extend_from_slice(buffer.format(i).as_bytes())?;
    text.extend_from_slice(b"\n")?;
    Ok(())
}
