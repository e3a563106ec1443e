//! A likely order of numbers. It decides how long the work takes, and not what comes of it.
use std::alloc::{AllocError, Global};

/// For each number, those that mention it.
fn user_lists(alloc: Global, mentions: &[Vec<u32>]) -> Result<Vec<Vec<u32>>, AllocError> {
    let mut users = Vec::new(alloc);
    for _ in mentions {
        users.push(Vec::new(alloc))?;
    }
    for (user, list) in mentions.iter().enumerate() {
        add_user(&mut users, user, list)?;
    }
    Ok(users)
}

/// Adds the user to the lists of those that it mentions.
fn add_user(users: &mut Vec<Vec<u32>>, user: usize, mentions: &[u32]) -> Result<(), AllocError> {
    let Ok(user) = u32::try_from(user) else {
        return Ok(());
    };
    for number in mentions {
        let number = *number as usize;
        if number < users.len() {
            users[number].push(user)?;
        }
    }
    Ok(())
}

/// Takes one off what each of these users waits for, and adds to the order those that wait for nothing more.
fn serve(users: &[u32], waits: &mut Vec<usize>, order: &mut Vec<u32>) -> Result<(), AllocError> {
    for user in users {
        let at = *user as usize;
        if at < waits.len() {
            if waits[at] == 1 {
                order.push(*user)?;
            }
            waits[at] = waits[at].saturating_sub(1);
        }
    }
    Ok(())
}

/// The numbers that mention none, and then each as soon as all that it mentions stand in the order.
pub(crate) fn likely_order(alloc: Global, mentions: &[Vec<u32>]) -> Result<Vec<u32>, AllocError> {
    let users = user_lists(alloc, mentions)?;
    let mut waits = Vec::new(alloc);
    let mut order = Vec::new(alloc);
    for (number, list) in mentions.iter().enumerate() {
        waits.push(list.len())?;
        if list.is_empty()
            && let Ok(number) = u32::try_from(number)
        {
            order.push(number)?;
        }
    }
    for next in 0..mentions.len() {
        if next >= order.len() {
            break;
        }
        let number = order[next] as usize;
        if number < users.len() {
            serve(&users[number], &mut waits, &mut order)?;
        }
    }
    Ok(order)
}
