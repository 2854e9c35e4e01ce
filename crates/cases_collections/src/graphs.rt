//! Repositories with many manifests, of which a plain program repeats the definition of what stays.
use crate::manifests::{descriptor, empty_row, in_order};
use crate::policies::{add_tag, built};
use zot_cases::{Answer, number, word};
use zot_collect::{RetireView, are_in_order, retire};
use zot_digest::{Digest, digest_of};
use zot_media::DescriptorList;

const MOMENT: u64 = 1000;

const DELAY: u64 = 10;

// A repository whose manifests are numbered, with who is whose child.
#[derive(Drop)]
struct Repository {
    state: RetireView,
    // Whether each manifest stays by itself.
    roots: Vec<bool>,
    // The numbers of a parent and its child.
    children: Vec<(usize, usize)>,
}

// Numbers that are as good as random.
#[derive(Drop)]
struct Numbers {
    state: u64,
}

impl Numbers {
    // The next one below a limit.
    fn below(&mut self, limit: u64) -> u64 {
        self.state = self
            .state
            .wrapping_mul(6364136223846793005)
            .wrapping_add(1442695040888963407);
        (self.state >> 33).checked_rem(limit).unwrap_or(0)
    }
}

/// How many manifests go: `SHAPE SEED COUNT`, where the shape is `chain`, `star` or `random`. `retire` has to give just those that a
/// plain program gives, which repeats the definition until nothing changes.
pub fn graph(answer: &mut Answer, given: &str) {
    let count = number(word(given, 2));
    let graph = graph_of(answer, word(given, 0), number(word(given, 1)), count);
    let Some(policy) = built(answer, "pattern=^k", true) else {
        return;
    };
    if !are_in_order(graph.state.manifests.as_slice()) {
        return answer.fail("manifests that aren't in order");
    }
    let Ok(retired) = retire(answer.alloc(), Some(&policy), &graph.state, MOMENT, DELAY) else {
        return answer.fail("out of memory");
    };
    let expected = expected(answer, &graph);
    answer.confirm(
        retired.manifests.as_slice() == expected.as_slice(),
        "others go; ",
    );
    answer.tell(&retired.manifests.len());
}

// The repository of a shape.
fn graph_of(answer: &mut Answer, shape: &str, seed: u64, count: u64) -> Repository {
    let alloc = answer.alloc();
    let mut numbers = Numbers { state: seed };
    let mut graph = Repository {
        state: RetireView {
            tags: Vec::new(alloc),
            manifests: Vec::new(alloc),
            blobs: Vec::new(alloc),
        },
        roots: Vec::new(alloc),
        children: Vec::new(alloc),
    };
    for parent in 0..count {
        let children = children_of(answer, shape, &mut numbers, parent, count);
        add_manifest(
            answer,
            &mut graph,
            parent,
            numbers.below(400),
            children.as_slice(),
        );
    }
    in_order(answer, &mut graph.state.manifests);
    graph
}

// The children of a manifest: of a chain the next one, but for each fiftieth; of a star those up to the next hub, each two
// hundredth; else up to three others.
fn children_of(
    answer: &mut Answer,
    shape: &str,
    numbers: &mut Numbers,
    parent: u64,
    count: u64,
) -> Vec<u64> {
    let mut children = Vec::new(answer.alloc());
    match shape {
        "chain" => {
            if numbers.below(50) != 0 {
                answer.keep(children.push(parent.wrapping_add(1)), ());
            }
        }
        "star" => {
            if parent % 200 == 0 {
                for next in 1..200 {
                    answer.keep(children.push(parent.wrapping_add(next)), ());
                }
            }
        }
        _ => {
            for _ in 0..numbers.below(4) {
                answer.keep(children.push(numbers.below(count)), ());
            }
        }
    }
    children
}

// Adds a manifest with its children. The kind says whether it has a tag that stays or one that goes, is young, or has a subject.
fn add_manifest(
    answer: &mut Answer,
    graph: &mut Repository,
    parent: u64,
    kind: u64,
    children: &[u64],
) {
    let alloc = answer.alloc();
    let arrived = if kind == 2 { MOMENT } else { 0 };
    let mut row = empty_row(answer, digest_at(parent), arrived);
    let mut listed = Vec::new(alloc);
    for child in children {
        answer.keep(
            listed.push(descriptor(answer, digest_at(*child), false)),
            (),
        );
        answer.keep(graph.children.push((parent as usize, *child as usize)), ());
    }
    row.reading.children = DescriptorList::new(listed);
    if kind == 3 {
        row.reading.subject = Some(descriptor(answer, digest_at(0), false));
    }
    if kind < 2 {
        let mark = if kind == 0 { "k" } else { "g" };
        let name = answer.keep(format!(in alloc; "{mark}{parent}"), String::new(alloc));
        add_tag(
            answer,
            &mut graph.state.tags,
            name.as_str(),
            &parent.to_be_bytes(),
            0,
        );
    }
    answer.keep(graph.roots.push(kind == 0 || kind == 2 || kind == 3), ());
    answer.keep(graph.state.manifests.push(row), ());
}

// The digest of a manifest by its number.
fn digest_at(number: u64) -> Digest {
    digest_of(&number.to_be_bytes())
}

// The digests that go, in their order.
fn expected(answer: &mut Answer, graph: &Repository) -> Vec<Digest> {
    let alloc = answer.alloc();
    let mut stays = answer.keep(
        Vec::from_slice(alloc, graph.roots.as_slice()),
        Vec::new(alloc),
    );
    for _ in 0..graph.roots.len() {
        if !spread(graph.children.as_slice(), stays.as_mut_slice()) {
            break;
        }
    }
    let mut gone = Vec::new(alloc);
    for (number, stays) in stays.as_slice().iter().enumerate() {
        if !*stays {
            answer.keep(gone.push(digest_at(number as u64)), ());
        }
    }
    gone.sort_unstable();
    gone
}

// Marks each child of a manifest that has a mark, and answers whether one had none.
fn spread(children: &[(usize, usize)], stays: &mut [bool]) -> bool {
    let mut is_more = false;
    for (parent, child) in children {
        let is_marked = stays.get(*parent).copied().unwrap_or(false);
        if is_marked && let Some(mark) = stays.get_mut(*child) {
            is_more |= !*mark;
            *mark = true;
        }
    }
    is_more
}
