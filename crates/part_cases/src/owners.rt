//! Cases of lists and boxes, and of trees that reach themselves through them.
use crate::steps::{Steps, tell_steps};
use case_files::Answer;
use trees::{Boxed, Items};

impl Steps for Items<u64> {
    fn step(&mut self, answer: &mut Answer, word: &str, numbers: &[u64]) -> Option<()> {
        let first = numbers.first().copied().unwrap_or(0);
        match word {
            "slice" | "append" => {
                let items = Items::from_slice(answer.alloc(), numbers);
                let items = answer.made(items)?;
                if word == "slice" {
                    *self = items;
                } else {
                    answer.note(self.append(items));
                }
            }
            "push" => answer.note(self.push(first)),
            "set" => {
                if first as usize >= self.len() {
                    return None;
                }
                self.set(first as usize, *numbers.get(1)?);
            }
            "len" => answer.show_all(&[self.len()]),
            "empty" => answer.show_all(&[self.is_empty()]),
            "get" => answer.show_all(&[self.get(first as usize)]),
            "pop" => answer.show_all(&[self.pop()]),
            _ => return None,
        }
        Some(())
    }
}

/// What is done with a list.
pub(crate) fn tell_items(answer: &mut Answer, steps: &str) -> Option<()> {
    let mut items: Items<u64> = Items::new(answer.alloc());
    tell_steps(answer, &mut items, steps)?;
    answer.show(items.as_slice());
    Some(())
}

/// What a box holds, and gives back.
pub(crate) fn tell_box(answer: &mut Answer, case: &str) -> Option<()> {
    let boxed = Boxed::new(answer.alloc(), case.parse::<u64>().ok()?);
    let boxed = answer.made(boxed)?;
    answer.tell("holds ");
    answer.show(*boxed.get());
    answer.tell(", gives back ");
    answer.show(boxed.into_inner());
    Some(())
}

#[derive(Drop)]
enum Tree {
    Leaf(u64),
    Pair(Boxed<Tree>, Boxed<Tree>),
    Row(Items<Tree>),
}

/// Adds the numbers of a tree's leaves, from the left.
fn add_leaves(answer: &mut Answer, tree: &Tree, leaves: &mut Items<u64>) {
    match tree {
        Tree::Leaf(number) => answer.note(leaves.push(*number)),
        Tree::Pair(first, second) => {
            add_leaves(answer, first.get(), leaves);
            add_leaves(answer, second.get(), leaves);
        }
        Tree::Row(row) => {
            for child in row.as_slice() {
                add_leaves(answer, child, leaves);
            }
        }
    }
}

/// The row of the last so many trees that wait.
fn row_of(answer: &mut Answer, waiting: &mut Vec<Tree>, count: u64) -> Option<Tree> {
    let mut children = Vec::new(answer.alloc());
    for _ in 0..count {
        answer.note(children.push(waiting.pop()?));
    }
    children.reverse();
    Some(Tree::Row(Items::from_vec(children)))
}

/// The tree of a word, which takes its children from those that wait, the last ones first.
fn tree_of(answer: &mut Answer, waiting: &mut Vec<Tree>, word: &str) -> Option<Tree> {
    if let Some(count) = word.strip_prefix("row:") {
        return row_of(answer, waiting, count.parse::<u64>().ok()?);
    }
    if word != "pair" {
        return Some(Tree::Leaf(word.parse::<u64>().ok()?));
    }
    let second = Boxed::new(answer.alloc(), waiting.pop()?);
    let second = answer.made(second)?;
    let first = Boxed::new(answer.alloc(), waiting.pop()?);
    let first = answer.made(first)?;
    Some(Tree::Pair(first, second))
}

/// The leaves of the tree that words make.
pub(crate) fn tell_tree(answer: &mut Answer, words: &str) -> Option<()> {
    let mut waiting = Vec::new(answer.alloc());
    for word in words.split_whitespace() {
        let tree = tree_of(answer, &mut waiting, word)?;
        answer.note(waiting.push(tree));
    }
    let mut leaves = Items::new(answer.alloc());
    add_leaves(answer, &waiting.pop()?, &mut leaves);
    answer.tell("leaves ");
    answer.show(leaves.as_slice());
    Some(())
}
