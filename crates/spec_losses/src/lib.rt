// Which projector matters (paper 02, 2.9): the definition and its laws. The code stands in image_map_losses, the call for hosts in calls_losses.
